//! The lines that `encode` prints. A line but that of the image has at most 64 bytes.
ghost use Rattle.std.specs.Prelude.{◌+◌, length};
ghost use Rattle.text.specs.Written.{HasRoom, Adds};
ghost use Rattle.fieldlist.specs.Fault.{fault_no};
ghost use Rattle.wording.specs.Lines.{no_input, text_too_long, list_too_long, image_line, refused_line, row_line, nodes_line};

use crate::words::row_fault_words;
use fieldlist::fault::RowFault;
use text::Page;

/// A missing file.
pub fn no_input(page: &mut Page)
    requires { HasRoom 64 page.old }
    ensures { Adds 64 page.old no_input page.new }
{
    page.put_text(b"no input\n");
}

/// A text of more bytes than are read.
pub fn text_too_long(page: &mut Page)
    requires { HasRoom 64 page.old }
    ensures { Adds 64 page.old text_too_long page.new }
{
    page.put_text(b"text too long\n");
}

/// A list of more bytes than are read.
pub fn list_too_long(page: &mut Page)
    requires { HasRoom 64 page.old }
    ensures { Adds 64 page.old list_too_long page.new }
{
    page.put_text(b"list too long\n");
}

/// The name of the image and its length.
pub fn image_line(page: &mut Page, name: &[u8], bytes: usize)
    requires { HasRoom (length name.now + 28) page.old }
    ensures { Adds (length name.now + 28) page.old (image_line name.now bytes) page.new }
{
    page.put_pair(name, bytes as u64);
    page.put_text(b" bytes\n");
}

/// The first line of a refusal.
pub fn refused_line(page: &mut Page, number: u32, line: usize)
    requires { HasRoom 64 page.old }
    ensures { Adds 64 page.old (refused_line number line) page.new }
{
    page.put_pair(b"refused", u64::from(number));
    page.put_last(b" at line", line as u64);
}

/// The first bad row of a list, from 1, and what is wrong with it.
pub fn row_line(page: &mut Page, row: usize, fault: RowFault)
    requires { HasRoom 64 page.old }
    ensures { Adds 64 page.old (row_line row (fault_no fault)) page.new }
{
    page.put_pair(b"row", row as u64);
    page.put_text(b": ");
    page.put_text(row_fault_words(fault));
    page.put_text(b"\n");
}

/// More nodes than an image holds.
pub fn nodes_line(page: &mut Page)
    requires { HasRoom 64 page.old }
    ensures { Adds 64 page.old nodes_line page.new }
{
    page.put_text(b"too many nodes: over 2048\n");
}
