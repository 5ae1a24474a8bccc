//! Text as bytes: pieces of a line, and numbers in decimal, put down one after the other on a page.
#![tactic(auto)]

ghost use Rattle.std.specs.Prelude.{◌≡◌, ◌+◌, ◌≤◌, length, take};
ghost use Rattle.text.specs.Text.{decimal, signed, pair, last};

/// Text from the start of lent bytes on; what stood behind it still stands there. A number has at most 20 digits, and asks for that much room.
#[derive(Drop)]
pub struct Page<'a> {
    /// The lent bytes.
    pub bytes: &'a mut [u8],
    /// How many of them are text.
    pub used: usize,
    ghost within: { used ≤ length bytes.now },
}

impl<'a> Page<'a> {
    ghost use Rattle.text.specs.Written.{HasRoom, Adds};

    /// A page without text.
    pub fn new(bytes: &'a mut [u8]) -> Page<'a>
        ensures empty { result.used ≡ 0 }
        ensures same_bytes { result.bytes.now ≡ bytes.old }
        ensures same_reference { result.bytes.ghost_name ≡ bytes.entry.ghost_name }
    {
        Page { bytes, used: 0 }
    }

    /// The text so far.
    pub fn text(&self) -> &[u8]
        ensures { result.now ≡ take self.now.used self.now.bytes.now }
    {
        &self.bytes[..self.used]
    }

    /// Bytes as they are.
    pub fn put_text(&mut self, s: &[u8])
        requires { HasRoom (length s.now) self.old }
        ensures { Adds (length s.now) self.old s.now self.new }
    {
        let end = self.used + s.len();
        self.bytes[self.used..end].copy_from_slice(s);
        self.used = end;
    }

    /// A number.
    pub fn put_decimal(&mut self, n: u64)
        requires { HasRoom 20 self.old }
        ensures { Adds 20 self.old (decimal n) self.new }
    {
        let mut digits = [0; 20];
        let count = io::decimal(n, &mut digits);
        self.put_text(&digits[..count]);
    }

    /// A signed integer: a minus sign stands before the digits of one below zero.
    pub fn put_signed(&mut self, n: i32)
        requires { HasRoom 21 self.old }
        ensures { Adds 21 self.old (signed n) self.new }
    {
        if n < 0 {
            self.put_text(b"-");
        }
        self.put_decimal(u64::from(n.unsigned_abs()));
    }

    /// A text, a space and a number.
    pub fn put_pair(&mut self, s: &[u8], n: u64)
        requires { HasRoom (length s.now + 21) self.old }
        ensures { Adds (length s.now + 21) self.old (pair s.now n) self.new }
    {
        self.put_text(s);
        self.put_text(b" ");
        self.put_decimal(n);
    }

    /// The same at the end of a line.
    pub fn put_last(&mut self, s: &[u8], n: u64)
        requires { HasRoom (length s.now + 22) self.old }
        ensures { Adds (length s.now + 22) self.old (last s.now n) self.new }
    {
        self.put_pair(s, n);
        self.put_text(b"\n");
    }
}
