//! The lines of the listing, of at most 128 bytes each.
ghost use Rattle.listed.specs.Listing.{header_line, row_line, refused_line, cell_line, field_line, no_input, choices_too_long};
ghost use Rattle.text.specs.Written.{HasRoom, Adds};

use crate::codes::code_at;
use crate::values::put_value;
use rules::{Frame, Value};
use text::Page;

/// What stands in the rows.
pub fn header_line(page: &mut Page)
    requires { HasRoom 128 page.old }
    ensures { Adds 128 page.old header_line page.new }
{
    page.put_text(b"step choice node tag frames objects\n");
}

/// The row of a step, numbered from 1.
pub fn row_line(
    page: &mut Page,
    step: usize,
    choice: u32,
    node: u32,
    tag: u32,
    frames: u32,
    objects: u32,
)
    requires { HasRoom 128 page.old }
    ensures { Adds 128 page.old (row_line step (record { choice = choice; node = node; tag = tag; frames = frames; objects = objects })) page.new }
{
    page.put_decimal(step as u64);
    page.put_pair(b"", u64::from(choice));
    page.put_pair(b"", u64::from(node));
    page.put_pair(b"", u64::from(tag));
    page.put_pair(b"", u64::from(frames));
    page.put_last(b"", u64::from(objects));
}

/// The cell of frame k.
pub fn cell_line(page: &mut Page, img: &[u8], k: u32, frame: Frame)
    requires { HasRoom 128 page.old }
    ensures { Adds 128 page.old (cell_line img.now k frame) page.new }
{
    page.put_pair(b"cell", u64::from(k));
    page.put_pair(b" name", u64::from(frame.name));
    put_value(page, img, frame.cell);
}

/// Object o, the field at position i from 0.
pub fn field_line(page: &mut Page, img: &[u8], o: u32, i: u32, value: Value)
    requires { HasRoom 128 page.old }
    ensures { Adds 128 page.old (field_line img.now o i value) page.new }
{
    page.put_pair(b"object", u64::from(o));
    page.put_pair(b" field", code_at(img, i));
    put_value(page, img, value);
}

/// A refused script: the number of the reason and its place.
pub fn refused_line(page: &mut Page, number: u32, place: u32)
    requires { HasRoom 128 page.old }
    ensures { Adds 128 page.old (refused_line number place) page.new }
{
    page.put_pair(b"refused", u64::from(number));
    page.put_last(b" at", u64::from(place));
}

/// A missing file.
pub fn no_input(page: &mut Page)
    requires { HasRoom 128 page.old }
    ensures { Adds 128 page.old no_input page.new }
{
    page.put_text(b"no input\n");
}

/// More choices than a run takes.
pub fn choices_too_long(page: &mut Page)
    requires { HasRoom 128 page.old }
    ensures { Adds 128 page.old choices_too_long page.new }
{
    page.put_text(b"choices too long\n");
}
