// Words and nodes as bytes: low byte first.
ghost use Rattle.std.specs.Prelude.{◌≡◌, ◌+◌, ◌<◌, ◌≤◌, length};
ghost use Rattle.std.proofs.lemmas.List.Edits.{sets};
ghost use Rattle.rules.specs.Published.{bytes_of, node_bytes};
ghost use Rattle.rules.proofs.Table.{Small};

use rules::Node;

/// The word `w`, below 65,536, at byte `at` and the one behind it.
#[tactic(auto, unfolding(rules::specs::Published::bytes_of))]
pub fn put_word(img: &mut [u8], at: usize, w: usize)
    requires { (at + 1 < length img.old) × (w < 65536) }
    ensures { img.new ≡ sets img.old at (bytes_of w) }
{
    img[at] = (w % 256) as u8;
    img[at + 1] = (w / 256) as u8;
}

/// The four words of a node, its tag first, from byte `at` on.
#[tactic(auto, using(crate::proofs::Cited::bytes_put_words_lemmas))]
pub fn put_words(img: &mut [u8], at: usize, x: Node)
    requires at_in_bounds { at + 8 ≤ length img.old }
    requires small { Small x }
    ensures { img.new ≡ sets img.old at (node_bytes x) }
{
    put_word(img, at, x.tag);
    put_word(img, at + 2, x.a);
    put_word(img, at + 4, x.b);
    put_word(img, at + 6, x.c);
}
