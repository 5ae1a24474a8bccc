//! A run's answer as text: document 01, "Listing". The header and a row for each step from the lent rows, the end, the
//! cells and the objects from the words of the workspace, each line after the one before on a page.
//! Nothing is asked of words, rows or script but their lengths: what a word means is decided for every word, and the
//! limits bound the way.
#![tactic(auto)]

mod entries;
mod parts;

ghost use Rattle.std.specs.Prelude.{◌+◌, ◌*◌, ◌≤◌, length};
ghost use Rattle.text.specs.Written.{HasRoom, Adds};
ghost use Rattle.rules.specs.State.{size};
ghost use Rattle.show.specs.Entries.{run_text};

use report::ends::end_line;
use report::lines::header_line;
use rules::End;
use text::Page;

/// The text of a run of an accepted script: the header, a row for each step, the end, at most 1,024 cells, at most 256
/// times 16 fields.
pub fn run(page: &mut Page, script: &[u8], workspace: &[u64], rows: &[u32], end: End, steps: usize)
    requires room { HasRoom (128 * (steps + 5122)) page.old }
    requires in_bounds { 10 ≤ length script.now }
    requires size_in_bounds { size ≤ length workspace.now }
    requires steps_in_bounds { 5 * steps ≤ length rows.now }
    ensures { Adds (128 * (steps + 5122)) page.old (run_text script.now workspace.now rows.now end steps) page.new }
{
    header_line(page);
    parts::put_rows(page, rows, steps);
    end_line(page, end, steps);
    parts::put_cells(page, script, workspace);
    parts::put_objects(page, script, workspace);
}
