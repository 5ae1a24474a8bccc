// The fields' words: those of a list, whose codes have to be the image's, or words that are made up where the list is empty.
ghost use Rattle.std.specs.Prelude.{◌≡◌, ◌≤◌};
ghost use Rattle.rules.specs.Image.{most_fields};
ghost use Rattle.writer.specs.Answer.{SameCodes, FieldsSay};

use crate::WriteError;
use crate::spelling::Spelling;
use fieldlist::FieldRows;
use image::Script;

/// The words of the fields.
#[derive(Clone, Copy)]
pub enum Fields<'a> {
    /// a0, a1, ..
    MadeUp,
    /// those of a list, by its rows
    Listed(&'a [u8], &'a FieldRows),
}

// Are these the script's codes?
#[tactic(auto, using(crate::proofs::CodeLaws::codes_same, crate::proofs::Cited::fields_same_codes_lemmas))]
fn same_codes(script: &Script<'_>, rows: &FieldRows) -> bool
    requires { rows.now.count ≤ most_fields }
    ensures { SameCodes script.now rows.now.codes rows.now.count result }
{
    if script.image.fields() != rows.count {
        return false;
    }
    for i in 0..rows.count {
        if script.image.code(i) != rows.codes[i] {
            return false;
        }
    }
    true
}

/// The script's text, with the words of a list for its fields, or with words that are made up where it is empty.
#[tactic(auto, using(crate::proofs::AnswerLaws::rows_few, crate::proofs::Cited::fields_write_listed_lemmas))]
pub fn write_listed(script: &Script<'_>, list: &[u8], out: &mut [u8]) -> Result<usize, WriteError>
    ensures { FieldsSay script.now list.now out.old result out.new }
{
    if list.is_empty() {
        return Spelling::new(script, Fields::MadeUp).write(out);
    }
    let Ok(rows) = fieldlist::rows(list) else {
        return Err(WriteError::BadList);
    };
    if !same_codes(script, &rows) {
        return Err(WriteError::OtherCodes);
    }
    Spelling::new(script, Fields::Listed(list, &rows)).write(out)
}
