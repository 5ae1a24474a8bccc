// The way past blanks: lines are counted by byte 10, and the reader is moved to the first byte that is no blank, or to the end.
ghost use Rattle.std.specs.Prelude.{◌≡◌, ◌+◌, ◌≤◌, ◌<◌, length};
ghost use Rattle.grammar.specs.Places.{line_after};
ghost use Rattle.letters.specs.Past.{past};

use crate::classes::class_of;

const BLANK: u8 = 1;

/// Where the reader is: a byte of the text, and the line on which it stands.
#[derive(Clone, Copy)]
pub struct Cursor {
    pub at: usize,
    pub line: usize,
}

// the line of the byte behind this one
fn line_after(b: u8, line: usize) -> usize
    requires { line < 9223372036854775808 }
    ensures { (result ≡ line_after b line) × (result ≤ line + 1) }
{
    if b == b'\n' { line + 1 } else { line }
}

impl Cursor {
    /// Moves past blanks, counting lines, to the first byte that is no blank, or to the end.
    pub fn past_blanks(&mut self, text: &[u8])
        requires { (self.old.at ≤ length text.now) × (self.old.line ≤ self.old.at + 1) }
        ensures { self.new ≡ past text.now self.old.at self.old.line }
    {
        while self.at < text.len() && class_of(text[self.at]) == BLANK {
            self.line = line_after(text[self.at], self.line);
            self.at += 1;
        }
    }
}

/// The same from a byte and its line: whoever calls this one sees no reference to a cursor.
pub fn place_after(text: &[u8], at: usize, line: usize) -> Cursor
    requires { (at ≤ length text.now) × (line ≤ at + 1) }
    ensures { result ≡ past text.now at line }
{
    let mut cursor = Cursor { at, line };
    cursor.past_blanks(text);
    cursor
}
