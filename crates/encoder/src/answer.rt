//! What is printed for a text and a list of fields, and the image. The files are tested first (missing, too long), then the reader is asked; only
//! where it refuses is it asked again, for what people are told.
ghost use Rattle.std.specs.Prelude.{◌≡◌, ◌≤◌, length};
ghost use Rattle.std.proofs.Math.Option.{some};
ghost use Rattle.text.specs.Written.{HasRoom, Adds};
ghost use Rattle.fieldlist.specs.Fault.{fault_no};
ghost use Rattle.filing.specs.Given.{given};
ghost use Rattle.filing.specs.Names.{most_name};
ghost use Rattle.encoder.specs.Encodes.{lent_bytes, lent_words, Short, bad_list_lines, bad_text_lines};
ghost use Rattle.encoder.specs.Says.{most_printed, Shows, IsRefused, RefusalSays, AnswerSays};

use fieldlist::BadRow;
use reader::why::{Why, why_refused};
use text::Page;
use wording::lines::{image_line, list_too_long, no_input, refused_line, row_line, text_too_long};
use wording::second::second_line;

/// The bytes of the longest text.
pub const MOST_TEXT: usize = 262144;

/// The bytes of the longest list of fields.
pub const MOST_LIST: usize = 4096;

const BAD_LIST: u32 = 21;

// The words for the longest text: three a byte, and four. A function of its own, whose contract is proved by a law: the check of a larger one would count
// the zeros one by one.
fn lent_words() -> [u32; 786436]
    ensures { 786436 ≡ length result }
{
    [0; 786436]
}

fn bad_list(page: &mut Page, bad: BadRow)
    requires { HasRoom 512 page.old }
    ensures { Adds 512 page.old (bad_list_lines bad.row (fault_no bad.fault)) page.new }
{
    refused_line(page, BAD_LIST, 0);
    row_line(page, bad.row, bad.fault);
}

fn bad_text(page: &mut Page, text: &[u8], w: Why)
    requires room { HasRoom 512 page.old }
    requires shows { Shows text.now w }
    ensures { Adds 512 page.old (bad_text_lines text.now w) page.new }
{
    refused_line(page, w.why, w.line);
    second_line(page, w.why as usize, w.kind, &text[w.from..w.to], &w.could);
}

// A list or a text that the reader refuses.
fn refusal(page: &mut Page, text: &[u8], list: &[u8], work: &mut [u32])
    requires room { HasRoom 512 page.old }
    requires short { Short text.now list.now }
    requires refused { IsRefused list.now text.now }
    requires lent_words_in_bounds { lent_words ≤ length work.old }
    ensures { RefusalSays text.now list.now page.old page.new }
{
    match fieldlist::rows(list) {
        Err(bad) => bad_list(page, bad),
        Ok(rows) => bad_text(page, text, why_refused(text, list, &rows, work)),
    }
}

// A text and a list that are not too long.
fn encoding(page: &mut Page, text: &[u8], list: &[u8], name: &[u8], img: &mut [u8]) -> Option<usize>
    requires room { HasRoom most_printed page.old }
    requires short { Short text.now list.now }
    requires name_len_bound { length name.now ≤ most_name }
    requires lent_bytes_in_bounds { lent_bytes ≤ length img.old }
    ensures { AnswerSays name.now (some text.now) (some list.now) result img.old page.old img.new page.new }
{
    let mut work = lent_words();
    match reader::read(text, list, &mut work, img) {
        Ok(bytes) => {
            image_line(page, name, bytes);
            Some(bytes)
        }
        Err(_) => {
            refusal(page, text, list, &mut work);
            None
        }
    }
}

/// What is printed for the two files, and how many bytes the image has, which stands in the first bytes of `img`, if there is one. A missing file comes
/// first, then the lengths; only then is the reader asked.
pub fn answer(
    page: &mut Page,
    text: Option<&[u8]>,
    list: Option<&[u8]>,
    name: &[u8],
    img: &mut [u8],
) -> Option<usize>
    requires room { HasRoom most_printed page.old }
    requires name_len_bound { length name.now ≤ most_name }
    requires lent_bytes_in_bounds { lent_bytes ≤ length img.old }
    ensures { AnswerSays name.now (given text.entry) (given list.entry) result img.old page.old img.new page.new }
{
    let (Some(text), Some(list)) = (text, list) else {
        no_input(page);
        return None;
    };
    if text.len() > MOST_TEXT {
        text_too_long(page);
        return None;
    }
    if list.len() > MOST_LIST {
        list_too_long(page);
        return None;
    }
    encoding(page, text, list, name, img)
}
