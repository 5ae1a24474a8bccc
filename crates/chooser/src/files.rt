//! The script's file and the choice file. Of a script 16,427 bytes are read at the most: one more than the longest image has is enough to judge a longer
//! file (proofs/Cut). The choice file is made whole or not at all.
ghost use Rattle.std.specs.Prelude.{◌≡◌, ◌≤◌, length};
ghost use Rattle.text.specs.Written.{HasRoom};
ghost use Rattle.filing.specs.Names.{most_name};
ghost use Rattle.chooser.specs.Makes.{most_picks};
ghost use Rattle.chooser.specs.Says.{most_printed, FileFits};

use crate::answer::answer;
use filing::{is_read, make_file, open_read, print_lines, read_full};
use std::io::Read;
use std::rt::Files;
use text::Page;

// The bytes of the longest script and one more.
const MOST_READ: usize = 16427;

fn answer_file<F: Read>(page: &mut Page, script: &mut Option<F>, picks: &mut [u8]) -> Option<usize>
    requires room { HasRoom most_printed page.old }
    requires most_picks_value { most_picks ≡ length picks.old }
    ensures { FileFits result picks.new }
{
    let mut bytes = [0; MOST_READ];
    let n = read_full(script, &mut bytes);
    let script = is_read(script, n, MOST_READ).then_some(&bytes[..n]);
    answer(page, script, picks)
}

/// What the program `turns` does with the names that it is given. The line is printed only after the choice file stands under its name.
pub fn choose_paths<R: Files + Print + Eprint>(rt: &R, script: &[u8], choices: &[u8])
    requires { length choices.now ≤ most_name }
{
    let mut picks = [0; 4096];
    let mut line = [0; 128];
    let mut page = Page::new(&mut line);
    // a statement of its own, at whose end the script's file is closed: the choice file is opened after that
    let picked = answer_file(&mut page, &mut open_read(rt, script), &mut picks);
    if let Some(count) = picked {
        if !make_file(rt, choices, &picks[..count]) {
            return;
        }
    }
    print_lines(rt, page.text());
}

/// What it does with any other number of names.
pub fn print_usage<R: Print + Eprint>(rt: &R) {
    print_lines(rt, b"usage: turns SCRIPT CHOICES\n");
}
