//! The listing of two files: document 01, "Listing". The whole text is made on one page, byte for byte what the
//! definition says, and written at once. The page holds the longest listing: the header, 4,096 rows, the end, 1,024
//! cells and 4,096 fields, a line of at most 128 bytes each; so nothing is ever cut.
#![tactic(auto)]

ghost use Rattle.std.specs.Prelude.{◌≡◌, ◌≤◌, length};
ghost use Rattle.listed.specs.Listing.{listing as listing_of, printed};
ghost use Rattle.text.specs.Written.{HasRoom, Adds};
ghost use Rattle.filing.specs.Given.{given};

use filing::{open_read, print_lines, read_full};
use report::lines::{choices_too_long, no_input, refused_line};
use rules::{Answer, SIZE};
use std::rt::Files;
use text::Page;

const MOST_CHOICES: usize = 4096;

// The bytes of the longest listing.
const MOST_PRINTED: usize = 1179904;

// The traced run and its listing. A workspace of the size, and rows for as many steps as there can be.
fn listing(page: &mut Page, script: &[u8], choices: &[u8])
    requires choices_len_bound { length choices.now ≤ 4096 }
    requires room { HasRoom 1179904 page.old }
    ensures { Adds 1179904 page.old (listing_of script.now choices.now) page.new }
{
    let mut workspace = [0; SIZE];
    let mut rows = [0; 5 * MOST_CHOICES];
    match interpreter::trace(script, choices, &mut workspace, &mut rows) {
        Answer::Refusal(number, place) => refused_line(page, number, place),
        Answer::Ending(end, steps) => show::run(page, script, &workspace, &rows, end, steps),
    }
}

// What is printed for the two files. A missing file comes first, then the number of choices; only then is the script
// judged, by the interpreter.
fn answer(page: &mut Page, script: Option<&[u8]>, choices: Option<&[u8]>)
    requires { HasRoom 1179904 page.old }
    ensures { Adds 1179904 page.old (printed (given script.entry) (given choices.entry)) page.new }
{
    let (Some(script), Some(choices)) = (script, choices) else {
        return no_input(page);
    };
    if choices.len() > MOST_CHOICES {
        return choices_too_long(page);
    }
    listing(page, script, choices);
}

// Room for the longest listing. A function of its own, whose contract is proved by a law: the check of a larger one would count the zeros one by one.
fn room() -> [u8; MOST_PRINTED]
    ensures { 1179904 ≡ length result }
{
    [0; MOST_PRINTED]
}

// An image has at most 10 + 32 + 16,384 bytes: one byte more is enough to refuse a longer file for its length, and one
// byte more than 4,096 to see too many choices (proofs/Cut).
fn list_files<R: Files + Print + Eprint>(
    rt: &R,
    mut script: Option<R::File>,
    mut choices: Option<R::File>,
) {
    let mut bytes = [0; 16427];
    let n = read_full(&mut script, &mut bytes);
    let mut picks = [0; MOST_CHOICES + 1];
    let m = read_full(&mut choices, &mut picks);
    let mut lines = room();
    let mut page = Page::new(&mut lines);
    answer(
        &mut page,
        script.is_some().then_some(&bytes[..n]),
        choices.is_some().then_some(&picks[..m]),
    );
    print_lines(rt, page.text());
}

/// The listing of the files at these paths, to standard output. Both are opened before either is read.
pub fn list_paths<R: Files + Print + Eprint>(rt: &R, script: &[u8], choices: &[u8]) {
    let s = open_read(rt, script);
    let c = open_read(rt, choices);
    list_files(rt, s, c);
}
