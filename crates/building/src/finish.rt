// The end of a text: may it end there, and are its nodes few enough. Then the codes as words, and the image goes out.
ghost use Rattle.std.specs.Prelude.{◌≡◌, map, ◌%◌, ◌≤◌, length};
ghost use Rattle.std.proofs.lemmas.List.Edits.{sets};
ghost use Rattle.rules.specs.Image.{most_fields, most_nodes, most_names};
ghost use Rattle.grammar.specs.Reads.{most_bytes};
ghost use Rattle.dues.specs.Stack.{Standing};
ghost use Rattle.tables.specs.Tabled.{head_bytes};
ghost use Rattle.building.specs.Finish.{EndSaysAll, Out};

use crate::nodes::{MOST_NODES, Nodes, all_pass};

/// Why a text may not end where it does.
#[derive(Clone, Copy, Debug, PartialEq, Eq)]
pub enum EndError {
    /// Something is still due that may not be missing.
    Early,
    /// An image has at most 2,048 nodes.
    TooManyNodes,
}

impl Nodes {
    /// The nodes of all that is still due come out, where all of it may be missing.
    pub fn end(&mut self, work: &[u32], depth: usize) -> Result<(), EndError>
        requires { Standing depth work.now }
        ensures { EndSaysAll depth work.now result self.old self.new }
    {
        if !all_pass(work, depth) {
            return Err(EndError::Early);
        }
        self.put_passed(work, depth, 0, 0);
        if self.count > MOST_NODES {
            return Err(EndError::TooManyNodes);
        }
        Ok(())
    }

    /// The head with these codes goes before the nodes, and all of it out, of which the length is answered.
    pub fn put_image(&mut self, codes: &[u16], names: usize, out: &mut [u8]) -> usize
        requires few_codes { length codes.now ≤ most_fields }
        requires few { (self.old.count ≤ most_nodes) × (names ≤ most_names) }
        requires room { most_bytes ≤ length out.old }
        ensures { Out self.old.count names result codes.now self.old.image out.old out.new }
    {
        put_image(&mut self.image, codes, self.count, names, out)
    }
}

/// The head goes before the nodes of an image that begin behind the place of these codes, and all of it out, of which the length is answered.
pub fn put_image(img: &mut [u8], codes: &[u16], nodes: usize, names: usize, out: &mut [u8]) -> usize
    requires img_len { (length img.old ≡ most_bytes) × (most_bytes ≤ length out.old) }
    requires few { (length codes.now ≤ most_fields) × (nodes ≤ most_nodes) × (names ≤ most_names) }
    ensures head { img.new ≡ sets img.old 0 (head_bytes codes.now nodes names) }
    ensures out { Out nodes names result codes.now img.old out.old out.new }
{
    tables::head::put_head(img, codes, nodes, names);
    let n = 10 + 2 * codes.len() + 8 * nodes;
    out[..n].copy_from_slice(&img[..n]);
    n
}

/// The codes of a list that is right are below 65,536.
pub fn narrow(codes: &[usize; 16]) -> [u16; 16]
    ensures { result ≡ map (λ c. c % 65536) codes.now }
{
    let mut words = [0; 16];
    for (i, code) in codes.iter().enumerate() {
        words[i] = (code % 65536) as u16;
    }
    words
}
