//! One entry as its line, of at most 128 bytes: a row of the lent rows, a frame's cell and a field of an object from the
//! words. The contracts say exactly which bytes; proofs/OfState says that they are those of the state that is laid out in
//! the words.
ghost use Rattle.std.specs.Prelude.{◌+◌, ◌*◌, ◌<◌, ◌≤◌, length};
ghost use Rattle.listed.specs.Listing.{row_line, cell_line, field_line};
ghost use Rattle.text.specs.Written.{HasRoom, Adds};
ghost use Rattle.rules.specs.Image.{most_fields};
ghost use Rattle.rules.specs.State.{most_objects, size, frames_at};
ghost use Rattle.show.specs.Entries.{lent_row, frame_in, field_word_in};

use report::lines::{cell_line, field_line, row_line};
use rules::VALUE_END;
use store::{frames, objects};
use text::Page;
use words::packing;

/// Row i, from 0, is that of step i + 1.
pub fn row(page: &mut Page, rows: &[u32], i: usize)
    requires room { HasRoom 128 page.old }
    requires i_in_bounds { 5 * i + 5 ≤ length rows.now }
    ensures { Adds 128 page.old (row_line (i + 1) (lent_row rows.now i)) page.new }
{
    let at = 5 * i;
    row_line(
        page,
        i + 1,
        rows[at],
        rows[at + 1],
        rows[at + 2],
        rows[at + 3],
        rows[at + 4],
    );
}

/// The cell of frame k.
pub fn cell(page: &mut Page, script: &[u8], ws: &[u64], k: u32)
    requires room { HasRoom 128 page.old }
    requires k_in_bounds { frames_at + k < length ws.now }
    ensures { Adds 128 page.old (cell_line script.now k (frame_in ws.now k)) page.new }
{
    cell_line(page, script, k, frames::frame_at(ws, k));
}

/// Object o, the field at position i from 0; a value has 35 bits.
pub fn field(page: &mut Page, script: &[u8], ws: &[u64], o: u32, i: u32)
    requires room { HasRoom 128 page.old }
    requires o_lt_most_objects { (o < most_objects) × (i < most_fields) }
    requires size_in_bounds { size ≤ length ws.now }
    ensures { Adds 128 page.old (field_line script.now o i (field_word_in ws.now o i)) page.new }
{
    let at = objects::field_place(o, i);
    let v = packing::value_of(ws[at] % VALUE_END);
    field_line(page, script, o, i, v);
}
