//! A pen that writes tokens as bytes, with the gaps between them.
#![tactic(auto)]

mod gaps;
pub mod kinds;
mod marks;

ghost use Rattle.std.specs.Prelude.{◌≡◌, [], ◌∷◌, ◌+◌, ◌≤◌, set};
ghost use Rattle.std.proofs.lemmas.List.Edits.{sets};
ghost use Rattle.writing.specs.Spell.{decimal_of, made_up, made_up_field};
ghost use Rattle.pen.specs.declared.Place.TheVariants.{At};
ghost use Rattle.pen.specs.Draws.{Puts, Gaps, Token, Marks, Turns, end_of};

use crate::gaps::is_tight;
use crate::kinds::{FIELD_NAME, NAME, NUMBER};
use crate::marks::spelling;

/// Where a pen stands.
#[derive(Clone, Copy, Debug, PartialEq, Eq)]
pub enum Place {
    /// before this byte, behind a token of this kind; 0 where there is none
    At(usize, u32),
    /// the text is longer than it may be
    Over,
}

/// A pen on lent bytes. It writes at most `most` bytes; those past the end of what is lent fall away, so that with
/// nothing lent it counts.
#[derive(Drop)]
pub struct Pen<'a> {
    pub out: &'a mut [u8],
    pub most: usize,
    pub place: Place,
}

fn store(out: &mut [u8], at: usize, byte: u8)
    ensures { out.new ≡ set out.old at byte }
{
    if at < out.len() {
        out[at] = byte;
    }
}

// The same for bytes, as many as stand there. Not by copy_from_slice: that calls a function that the library for C asks of nobody else.
#[tactic(auto, using(crate::proofs::RunLaws::storing))]
fn store_all(out: &mut [u8], at: usize, bytes: &[u8])
    ensures { out.new ≡ sets out.old at bytes.now }
{
    let count = bytes.len().min(out.len().saturating_sub(at));
    for k in 0..count {
        out[at + k] = bytes[k];
    }
}

fn digit(n: u64) -> u8
    requires { n ≤ 9 }
    ensures { result ≡ 48 + n }
{
    b'0' + n as u8
}

impl<'a> Pen<'a> {
    /// A pen before the first token.
    pub fn new(out: &'a mut [u8], most: usize) -> Pen<'a>
        ensures same_reference { result.out.ghost_name ≡ out.entry.ghost_name }
        ensures same_bytes { result.out.now ≡ out.old }
        ensures most { result.most ≡ most }
        ensures place { result.place ≡ At 0 0 }
    {
        Pen {
            out,
            most,
            place: Place::At(0, kinds::NONE),
        }
    }

    /// How many bytes are written; none where the text is longer than it may be.
    pub fn end(&self) -> Option<usize>
        ensures { result ≡ end_of self.now.place }
    {
        match self.place {
            Place::At(at, _) => Some(at),
            Place::Over => None,
        }
    }

    /// One byte of a token.
    #[tactic(auto, using(crate::proofs::Cited::put_lemmas))]
    pub fn put(&mut self, byte: u8)
        ensures { Puts (byte ∷ []) self.old self.new }
    {
        let Place::At(at, last) = self.place else {
            return;
        };
        if self.most <= at {
            self.place = Place::Over;
            return;
        }
        store(self.out, at, byte);
        self.place = Place::At(at + 1, last);
    }

    /// Bytes of a token: all at once, since a pen that moves byte by byte is stored and loaded again at each.
    #[tactic(auto, using(crate::proofs::RunLaws::runs))]
    pub fn put_bytes(&mut self, bytes: &[u8])
        ensures { Puts bytes.now self.old self.new }
    {
        let Place::At(at, last) = self.place else {
            return;
        };
        let room = self.most.saturating_sub(at);
        if bytes.len() <= room {
            store_all(self.out, at, bytes);
            self.place = Place::At(at + bytes.len(), last);
        } else {
            store_all(self.out, at, &bytes[..room]);
            self.place = Place::Over;
        }
    }

    /// A number's digits.
    #[tactic(auto, using(crate::proofs::DecimalLaws::digits_one, crate::proofs::DecimalLaws::digits_more))]
    pub fn put_decimal(&mut self, n: u64)
        ensures { Puts (decimal_of n) self.old self.new }
    {
        if n < 10 {
            self.put(digit(n));
            return;
        }
        self.put_decimal(n / 10);
        self.put(digit(n % 10));
    }

    // the gap before a token of this kind
    #[tactic(auto, using(crate::proofs::Cited::put_gap_lemmas))]
    fn put_gap(&mut self, next: u32)
        ensures { Gaps next self.old self.new }
    {
        let Place::At(_, last) = self.place else {
            return;
        };
        if last == kinds::NONE || is_tight(last, next) {
            return;
        }
        self.put(b' ');
    }

    // the token that was put is of this kind
    fn turn(&mut self, kind: u32)
        ensures { Turns kind self.old self.new }
    {
        if let Place::At(at, _) = self.place {
            self.place = Place::At(at, kind);
        }
    }

    /// A token of a kind, with the gap before it.
    #[tactic(auto, using(crate::proofs::DrawLaws::token_of))]
    pub fn put_token(&mut self, kind: u32, bytes: &[u8])
        ensures { Token kind bytes.now self.old self.new }
    {
        self.put_gap(kind);
        self.put_bytes(bytes);
        self.turn(kind);
    }

    /// A reserved word or a symbol by its kind, where there is one.
    #[tactic(auto, using(crate::proofs::Cited::put_mark_lemmas))]
    pub fn put_mark(&mut self, kind: Option<u32>)
        ensures { Marks kind self.old self.new }
    {
        if let Some(kind) = kind {
            self.put_token(kind, spelling(kind));
        }
    }

    #[tactic(auto, using(crate::proofs::DrawLaws::token_of))]
    pub fn put_number(&mut self, n: u64)
        ensures { Token 3 (decimal_of n) self.old self.new }
    {
        self.put_gap(NUMBER);
        self.put_decimal(n);
        self.turn(NUMBER);
    }

    // a letter and a number's digits
    #[tactic(auto, using(crate::proofs::DrawLaws::lettered))]
    fn put_lettered(&mut self, kind: u32, letter: u8, n: u64)
        ensures { Token kind (letter ∷ decimal_of n) self.old self.new }
    {
        self.put_gap(kind);
        self.put(letter);
        self.put_decimal(n);
        self.turn(kind);
    }

    /// The name that is made up for a number: A0, A1, ..
    #[tactic(auto, unfolding(writing::specs::Spell::made_up))]
    pub fn put_name(&mut self, x: u64)
        ensures { Token 1 (made_up x) self.old self.new }
    {
        self.put_lettered(NAME, b'A', x);
    }

    /// The field's name that is made up for a number: a0, a1, ..
    #[tactic(auto, unfolding(writing::specs::Spell::made_up_field))]
    pub fn put_field_name(&mut self, i: u64)
        ensures { Token 2 (made_up_field i) self.old self.new }
    {
        self.put_lettered(FIELD_NAME, b'a', i);
    }
}
