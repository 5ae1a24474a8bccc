//! The parts of the listing, line after line. A line has at most 128 bytes, and each part asks for that much room for every
//! line that it may write.
ghost use mathlib.Core.List.{flatten};
ghost use Rattle.std.specs.Prelude.{◌*◌, ◌<◌, ◌≤◌, length};
ghost use Rattle.listed.specs.Listing.{row_lines, cell_lines, field_lines, object_lines};
ghost use Rattle.text.specs.Written.{HasRoom, Adds};
ghost use Rattle.rules.specs.Image.{most_fields};
ghost use Rattle.rules.specs.State.{most_objects, size};
ghost use Rattle.show.specs.Entries.{rows_in, frames_in, fields_up_to, objects_in, at_most};

use crate::entries;
use text::Page;

const MOST_FRAMES: u64 = 1024;

const MOST_OBJECTS: u64 = 256;

const MOST_FIELDS: usize = 16;

/// A row for each step.
pub fn put_rows(page: &mut Page, rows: &[u32], steps: usize)
    requires room { HasRoom (128 * steps) page.old }
    requires steps_in_bounds { 5 * steps ≤ length rows.now }
    ensures { Adds (128 * steps) page.old (flatten (row_lines 1 (rows_in rows.now steps))) page.new }
{
    for i in 0..steps {
        entries::row(page, rows, i);
    }
}

/// The cells, in frame order.
pub fn put_cells(page: &mut Page, script: &[u8], ws: &[u64])
    requires room { HasRoom 131072 page.old }
    requires size_in_bounds { size ≤ length ws.now }
    ensures { Adds 131072 page.old (flatten (cell_lines script.now 0 (frames_in ws.now))) page.new }
{
    let count = store::frames::frame_count(ws).min(MOST_FRAMES) as u32;
    for k in 0..count {
        entries::cell(page, script, ws, k);
    }
}

// The first fields of object o, in order.
fn put_object(page: &mut Page, script: &[u8], ws: &[u64], fields: u32, o: u32)
    requires room { HasRoom 2048 page.old }
    requires few { (fields ≤ most_fields) × (o < most_objects) }
    requires size_in_bounds { size ≤ length ws.now }
    ensures { Adds 2048 page.old (flatten (field_lines script.now o 0 (fields_up_to ws.now o fields))) page.new }
{
    for i in 0..fields {
        entries::field(page, script, ws, o, i);
    }
}

/// Objects and fields in order; every object has the script's fields.
pub fn put_objects(page: &mut Page, script: &[u8], ws: &[u64])
    requires room { HasRoom 524288 page.old }
    requires in_bounds { 10 ≤ length script.now }
    requires size_in_bounds { size ≤ length ws.now }
    ensures { Adds 524288 page.old (flatten (object_lines script.now 0 (objects_in script.now ws.now))) page.new }
{
    let fields = image::fields(script).min(MOST_FIELDS) as u32;
    let count = store::objects::object_count(ws).min(MOST_OBJECTS) as u32;
    for o in 0..count {
        put_object(page, script, ws, fields, o);
    }
}
