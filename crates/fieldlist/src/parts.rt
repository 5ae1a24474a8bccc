// One row: its name, its comma, its digits and its line's end, with the first thing that is wrong with it.
ghost use Rattle.std.specs.Prelude.{◌≡◌, Bool, not, ◌&&◌, [], ◌∷◌, ◌+◌, ◌<◌, ◌≤◌, eqb, ltb, leb, length, drop, OnErr};
ghost use Rattle.grammar.specs.Places.{begins};
ghost use Rattle.fieldlist.specs.Judged.{first_of};
ghost use Rattle.fieldlist.specs.Fault.{why_of};
ghost use Rattle.fieldlist.specs.Names.{Spans, words};
ghost use Rattle.fieldlist.specs.Answer.{NameSays, CodeSays, RowSays};

use crate::fault::RowFault;
use crate::names::{Span, name_index};
use letters::classes::class_of;
use letters::kinds::kind_of_word;
use letters::numbers::number_of;
use letters::runs::{number_end, word_end};
use letters::token::Token;

const LOWER: u8 = 3;

const LARGEST_CODE: usize = 65535;

/// A code, and where the next row begins.
#[derive(Clone, Copy)]
pub struct CodePart {
    pub code: usize,
    pub next: usize,
}

/// Where a row's name ends, its code, and where the next row begins.
#[derive(Clone, Copy)]
pub struct RowPart {
    pub end: usize,
    pub code: usize,
    pub next: usize,
}

// where the name ends
fn name_part(list: &[u8], names: &[Span], at: usize) -> Result<usize, RowFault>
    requires spans { Spans list.now names.now (length names.now) }
    requires at_in_bounds { at < length list.now }
    ensures { NameSays list.now (words list.now names.now (length names.now)) at result }
{
    let end = word_end(list, at);
    if class_of(list[at]) != LOWER {
        return Err(RowFault::NoName);
    }
    let name = &list[at..end];
    if kind_of_word(name) != Token::Field {
        return Err(RowFault::Reserved);
    }
    if name_index(list, names, name).is_some() {
        return Err(RowFault::Repeated);
    }
    Ok(end)
}

// a byte of the list is not this one, or it isn't there
#[tactic(auto, using(crate::proofs::PartLaws::lacks_lemmas))]
fn lacks(list: &[u8], at: usize, b: u8) -> bool
    ensures { result ≡ not (begins (eqb b) (drop at list.now)) }
{
    list.len() <= at || list[at] != b
}

#[tactic(auto, using(crate::proofs::PartLaws::order_lemmas))]
fn in_order(code: usize, last: usize) -> Result<(), RowFault>
    ensures { why_of result ≡ first_of 8 (not (ltb 0 code && ltb code 65536) ∷ leb code last ∷ []) }
{
    if code == 0 || LARGEST_CODE < code {
        return Err(RowFault::OutOfRange);
    }
    if code <= last {
        return Err(RowFault::NotAbove);
    }
    Ok(())
}

fn code_part(list: &[u8], last: usize, end: usize) -> Result<CodePart, RowFault>
    requires { end ≤ length list.now }
    ensures { CodeSays list.now last end result }
{
    if lacks(list, end, b',') {
        return Err(RowFault::NoComma);
    }
    let start = end + 1;
    let e = number_end(list, start);
    if e == start {
        return Err(RowFault::NoDigit);
    }
    if lacks(list, e, b'\n') {
        return Err(RowFault::NoLineEnd);
    }
    let code = number_of(list, start, e) as usize;
    in_order(code, last)?;
    Ok(CodePart { code, next: e + 1 })
}

/// The row that begins at byte `at`, behind rows with these names, the last of which has the code `last`.
pub fn row_part(list: &[u8], names: &[Span], last: usize, at: usize) -> Result<RowPart, RowFault>
    requires spans { Spans list.now names.now (length names.now) }
    requires at_in_bounds { at < length list.now }
    ensures { RowSays list.now (words list.now names.now (length names.now)) last at result }
{
    let end = name_part(list, names, at)?;
    let CodePart { code, next } = code_part(list, last, end)?;
    Ok(RowPart { end, code, next })
}
