// The head of an image: its contents and its codes. It may be written last, when the numbers of nodes and names are known.
ghost use Rattle.std.specs.Prelude.{◌≡◌, ◌+◌, ◌*◌, ◌<◌, ◌≤◌, length};
ghost use mathlib.Core.List.{[], ◌∷◌, flatten, map};
ghost use Rattle.std.proofs.lemmas.List.Edits.{sets};
ghost use Rattle.rules.specs.Published.{bytes_of};
ghost use Rattle.tables.specs.Tabled.{head_bytes};

use crate::bytes;

// The five words of the contents: f codes, m nodes, n names.
#[tactic(auto, using(crate::proofs::HeadLaws::contents))]
fn put_contents(img: &mut [u8], f: usize, m: usize, n: usize)
    requires { (10 ≤ length img.old) × (f ≤ 16) × (m < 65536) × (n < 65536) }
    ensures { img.new ≡ sets img.old 0 (flatten (map bytes_of (10 ∷ f ∷ (10 + 2 * f) ∷ m ∷ n ∷ []))) }
{
    bytes::put_word(img, 0, 10);
    bytes::put_word(img, 2, f);
    bytes::put_word(img, 4, 10 + 2 * f);
    bytes::put_word(img, 6, m);
    bytes::put_word(img, 8, n);
}

// The codes behind the contents, a word each.
#[tactic(auto, using(crate::proofs::Cited::head_put_codes_lemmas))]
fn put_codes(img: &mut [u8], codes: &[u16])
    requires { 10 + 2 * length codes.now ≤ length img.old }
    ensures { img.new ≡ sets img.old 10 (flatten (map bytes_of codes.now)) }
{
    for (i, code) in codes.iter().enumerate() {
        bytes::put_word(img, 10 + 2 * i, usize::from(*code));
    }
}

/// The head of an image with these codes, `nodes` nodes and `names` names.
#[tactic(auto, using(crate::proofs::Cited::head_put_head_lemmas))]
pub fn put_head(img: &mut [u8], codes: &[u16], nodes: usize, names: usize)
    requires { (10 + 2 * length codes.now ≤ length img.old) × (length codes.now ≤ 16) × (nodes < 65536) × (names < 65536) }
    ensures { img.new ≡ sets img.old 0 (head_bytes codes.now nodes names) }
{
    put_contents(img, codes.len(), nodes, names);
    put_codes(img, codes);
}
