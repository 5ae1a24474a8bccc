// The reader of written scripts (order 1): from a text and a list of fields to the image, or the number and the line of the first mistake. It asks
// nothing of its caller. The stack of what is still due stands in lent words, three for each byte of the text and four, so that no text is too deep;
// the image is made in a buffer of its own and goes out whole or not at all.
#![tactic(auto)]

mod text;
pub mod why;

ghost use Rattle.std.specs.Prelude.{◌≡◌, ◌+◌, ◌*◌, ◌≤◌, ◌++◌, ltb, length, drop, replicate};
ghost use Rattle.grammar.specs.Reads.{most_bytes, words_for};
ghost use Rattle.fieldlist.specs.Answer.{RightRows};
ghost use Rattle.reader.specs.Says.{Listens, ReadSays};

use crate::text::Reading;
use building::finish;
use fieldlist::FieldRows;

const MOST_BYTES: usize = 16426;

/// Why a written script is refused: the number of what is wrong, 20 to 28, and its line from 1 on; line 0 where no line of the text is the reason.
#[derive(Clone, Copy, Debug, PartialEq, Eq)]
pub struct ReadError {
    pub number: u32,
    pub line: usize,
}

// Whether these are too few words for a text of so many bytes: fewer than 3 * bytes + 4, which may be more than a number here can say.
fn too_few(words: usize, bytes: usize) -> bool
    ensures { result ≡ ltb words (words_for bytes) }
{
    words < 4 || (words - 4) / 3 < bytes
}

// The words that a text of so many bytes asks for become zero.
fn clear(work: &mut [u32], bytes: usize)
    requires { words_for bytes ≤ length work.old }
    ensures { work.new ≡ replicate (words_for bytes) 0 ++ drop (words_for bytes) work.old }
{
    work[..3 * bytes + 4].fill(0);
}

// A text, with a list that is right and enough of all that is lent.
fn read_listed<'a>(
    text: &'a [u8],
    list: &'a [u8],
    rows: &'a FieldRows,
    work: &mut [u32],
    out: &mut [u8],
) -> Result<usize, ReadError>
    requires right_rows { RightRows list.now rows.now }
    requires text_in_bounds { (words_for (length text.now) ≤ length work.old) × (most_bytes ≤ length out.old) }
    ensures { Listens list.now text.now rows.now result work.old out.old work.new out.new }
{
    let mut reading = Reading::new(text, list, rows, work);
    let read = reading.read_all(work);
    clear(work, text.len());
    read?;
    let codes = finish::narrow(&rows.codes);
    let names = reading.names;
    Ok(reading.nodes.put_image(&codes[..rows.count], names, out))
}

// What no line of the text is the reason of.
const SHORT_OUTPUT: ReadError = ReadError {
    number: 20,
    line: 0,
};

const BAD_LIST: ReadError = ReadError {
    number: 21,
    line: 0,
};

const SHORT_WORK: ReadError = ReadError {
    number: 28,
    line: 0,
};

/// Reads a written script: the length of its image, which stands in the first bytes of `out` then. `work` has three words for each byte of the text and
/// four more, or more still, and `out` 16,426 bytes or more; these lengths are looked at first (20 for `out`, then 28), then the list of fields (21),
/// then the text. A refusal leaves `out` as it was.
pub fn read(text: &[u8], list: &[u8], work: &mut [u32], out: &mut [u8]) -> Result<usize, ReadError>
    ensures { ReadSays list.now text.now result work.old out.old work.new out.new }
{
    if out.len() < MOST_BYTES {
        return Err(SHORT_OUTPUT);
    }
    if too_few(work.len(), text.len()) {
        return Err(SHORT_WORK);
    }
    let Ok(rows) = fieldlist::rows(list) else {
        return Err(BAD_LIST);
    };
    read_listed(text, list, &rows, work, out)
}
