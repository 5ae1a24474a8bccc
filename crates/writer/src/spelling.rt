// The whole text of a script: counted with nothing lent, then written.
ghost use Rattle.std.specs.Prelude.{◌≡◌};
ghost use Rattle.pen.specs.declared.Place.TheVariants.{At};
ghost use Rattle.writer.specs.Ends.{Ends};
ghost use Rattle.writer.specs.Fields.{words_for, Stands};
ghost use Rattle.writer.specs.Answer.{text_of, Spells, Counted, WritesText};

use crate::WriteError;
use crate::ends::{Edges, PLAIN, node_end};
use crate::fields::Fields;
use image::Script;
use pen::Pen;

/// A script with the words of its fields, and how its expressions end and begin.
#[derive(Drop)]
pub struct Spelling<'a> {
    pub script: &'a Script<'a>,
    pub fields: Fields<'a>,
    pub ends: [Edges; 2048],
    ghost marked: { Ends script.now ends },
    ghost stands: { Stands script.now fields },
}

impl<'a> Spelling<'a> {
    #[tactic(auto, using(crate::proofs::EndLaws::ends_none, crate::proofs::EndLaws::ends_more, crate::proofs::EndLaws::ends_all))]
    pub fn new(script: &'a Script<'a>, fields: Fields<'a>) -> Spelling<'a>
        requires { Stands script.now fields }
        ensures script { result.script.now ≡ script.now }
        ensures fields { result.fields ≡ fields.entry }
    {
        let mut ends = [PLAIN; 2048];
        for n in 0..script.image.nodes() {
            ends[n] = node_end(script, &ends, n);
        }
        Spelling {
            script,
            fields,
            ends,
        }
    }

    // the whole text, by a pen that stands before the first token
    #[tactic(auto, using(crate::proofs::TextLaws::text_written), unfolding(rules::specs::Script::root_of))]
    fn put_text(&self, pen: &mut Pen<'_>)
        requires { pen.old.place ≡ At 0 0 }
        ensures { WritesText (text_of self.now.script.now (words_for self.now.script.now self.now.fields)) pen.old pen.new }
    {
        let script = self.script;
        let root = script.image.nodes() - 1;
        self.put_node(pen, root, false);
    }

    // how long the text is, if it has at most `most` bytes
    #[tactic(auto, using(crate::proofs::TextLaws::count_says))]
    fn length(&self, most: usize) -> Option<usize>
        ensures { Counted most (text_of self.now.script.now (words_for self.now.script.now self.now.fields)) result }
    {
        let mut nothing = [0u8; 1];
        let mut pen = Pen::new(&mut nothing, most);
        self.put_text(&mut pen);
        pen.end()
    }

    /// The text, if there is room for it, and how long it is.
    #[tactic(auto, using(crate::proofs::Cited::spelling_write_lemmas))]
    pub fn write(&self, out: &mut [u8]) -> Result<usize, WriteError>
        ensures { Spells self.now.script.now (words_for self.now.script.now self.now.fields) out.old result out.new }
    {
        let Some(length) = self.length(out.len()) else {
            return Err(WriteError::TooShort);
        };
        let mut pen = Pen::new(out, length);
        self.put_text(&mut pen);
        Ok(length)
    }
}
