// The next place of a text: a word, a number, a symbol or a bad byte, with its kind, its bytes and its line. Words and numbers run as far as they
// can. Each byte is looked at a bounded number of times: once as a blank or by its run, and at most six of a word once more for its kind.
ghost use Rattle.std.specs.Prelude.{◌≡◌, ◌+◌, ◌≤◌, ◌<◌, length, get_or};
ghost use Rattle.grammar.specs.Classes.{class_of, blank, upper, lower, digit, symbol};
ghost use Rattle.letters.specs.Says.{Stands, NextSays};

use crate::classes::class_of;
use crate::cursor::place_after;
use crate::kinds::{kind_of_symbol, kind_of_word, width_of_symbol};
use crate::runs::{number_end, word_end};
use crate::token::Token;

const UPPER: u8 = 2;

const LOWER: u8 = 3;

const DIGIT: u8 = 4;

const SYMBOL: u8 = 5;

/// The kind of the end of a text, which is no token.
pub const END: u32 = 0;

/// The kind of a byte that begins no token.
pub const BAD_BYTE: u32 = 29;

/// The bytes from `from` up to `to`, which stand on `line`. Their kind is a token's number, 1 to 28, or one of the two above.
#[derive(Clone, Copy)]
pub struct Place {
    pub kind: u32,
    pub from: usize,
    pub to: usize,
    pub line: usize,
}

fn name_at(text: &[u8], at: usize, line: usize) -> Place
    requires { (at < length text.now) × (class_of (get_or text.now at 0) ≡ upper) }
    ensures { Stands text.now at line result }
{
    let to = word_end(text, at + 1);
    Place {
        kind: Token::Name as u32,
        from: at,
        to,
        line,
    }
}

fn lower_at(text: &[u8], at: usize, line: usize) -> Place
    requires { (at < length text.now) × (class_of (get_or text.now at 0) ≡ lower) }
    ensures { Stands text.now at line result }
{
    let to = word_end(text, at + 1);
    Place {
        kind: u32::from(kind_of_word(&text[at..to])),
        from: at,
        to,
        line,
    }
}

fn number_at(text: &[u8], at: usize, line: usize) -> Place
    requires { (at < length text.now) × (class_of (get_or text.now at 0) ≡ digit) }
    ensures { Stands text.now at line result }
{
    let to = number_end(text, at + 1);
    Place {
        kind: Token::Number as u32,
        from: at,
        to,
        line,
    }
}

// a byte of the text; 0, which is in no symbol, past its end
fn byte_at(text: &[u8], at: usize) -> u8
    ensures { result ≡ get_or text.now at 0 }
{
    text.get(at).copied().unwrap_or(0)
}

fn symbol_at(text: &[u8], at: usize, line: usize) -> Place
    requires { (at < length text.now) × (class_of (get_or text.now at 0) ≡ symbol) }
    ensures { Stands text.now at line result }
{
    let b = text[at];
    let after = byte_at(text, at + 1);
    Place {
        kind: u32::from(kind_of_symbol(b, after)),
        from: at,
        to: at + width_of_symbol(b, after),
        line,
    }
}

fn piece_at(text: &[u8], at: usize, line: usize) -> Place
    requires { (at < length text.now) × (class_of (get_or text.now at 0) ≡ blank → ⊥) }
    ensures { Stands text.now at line result }
{
    match class_of(text[at]) {
        UPPER => name_at(text, at, line),
        LOWER => lower_at(text, at, line),
        DIGIT => number_at(text, at, line),
        SYMBOL => symbol_at(text, at, line),
        _ => Place {
            kind: BAD_BYTE,
            from: at,
            to: at + 1,
            line,
        },
    }
}

/// What stands behind byte `at`, which is on `line`: the next token, a bad byte, or the end of the text.
pub fn next(text: &[u8], at: usize, line: usize) -> Place
    requires { (at ≤ length text.now) × (line ≤ at + 1) }
    ensures { NextSays text.now at line result }
{
    let start = place_after(text, at, line);
    if start.at < text.len() {
        return piece_at(text, start.at, start.line);
    }
    Place {
        kind: END,
        from: start.at,
        to: start.at,
        line: start.line,
    }
}
