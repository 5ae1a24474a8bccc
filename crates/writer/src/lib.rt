// An image as text: what an office sees of an old image. The text is the one with the fewest parentheses; names are made up by their numbers, fields have
// the words of a list or are made up.
#![tactic(auto)]

mod ends;
mod fields;
mod forms;
mod spelling;
mod walk;

ghost use Rattle.std.specs.Prelude.{◌≡◌};
ghost use Rattle.writer.specs.Answer.{Answers, number_of};

use crate::fields::write_listed;
use rules::SIZE;

/// Why an image is not written, in the order in which the reasons are looked for.
#[derive(Clone, Copy, Debug, PartialEq, Eq)]
pub enum WriteError {
    /// the image breaks one of the rules 1 to 8
    BadImage,
    /// the list is no list of fields
    BadList,
    /// the list's codes aren't the image's
    OtherCodes,
    /// the text is longer than what is lent
    TooShort,
}

impl WriteError {
    /// The number that callers in C are told.
    pub fn number(self) -> u32
        ensures { result ≡ number_of self }
    {
        match self {
            WriteError::BadImage => 30,
            WriteError::BadList => 31,
            WriteError::OtherCodes => 32,
            WriteError::TooShort => 33,
        }
    }
}

/// The image's tree as text, in the first bytes of `out`, and how many they are; an error leaves `out` as it is. Every name is visible.
#[tactic(auto, using(crate::proofs::Cited::write_lemmas))]
pub fn write(img: &[u8], list: &[u8], out: &mut [u8]) -> Result<usize, WriteError>
    ensures { Answers img.now list.now out.old result out.new }
{
    let Ok(script) = checker::check(img, SIZE, u128::MAX) else {
        return Err(WriteError::BadImage);
    };
    write_listed(&script, list, out)
}
