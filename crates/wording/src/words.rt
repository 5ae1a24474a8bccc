//! The words of a number, a table for each kind of number.
ghost use Rattle.std.specs.Prelude.{◌≡◌, ◌<◌, ◌≤◌, length};
ghost use Rattle.fieldlist.specs.Fault.{fault_no};
ghost use Rattle.wording.specs.Lines.{words_of, row_faults, faults, kinds};

use fieldlist::fault::RowFault;

/// The kinds of tokens; 0 is the end of the text.
#[tactic(auto, unfolding(crate::specs::Lines::words_of, crate::specs::Lines::kinds))]
pub fn kind_words(kind: usize) -> &'static [u8]
    requires { kind < 28 }
    ensures words { result.now ≡ words_of kind kinds }
    ensures few { length result.now ≤ 8 }
{
    match kind {
        0 => b"the end",
        1 => b"a name",
        2 => b"a field",
        3 => b"a number",
        4 | 5 => b"-",
        6 => b"null",
        7 => b"proc",
        8 => b"true",
        9 => b"false",
        10 => b"var",
        11 => b"malloc",
        12 => b"skip",
        13 => b"while",
        14 => b"if",
        15 => b"else",
        16 => b"atom",
        17 => b"(",
        18 => b")",
        19 => b"{",
        20 => b"}",
        21 => b";",
        22 => b"||",
        23 => b".",
        24 => b"=",
        25 => b"==",
        26 => b"<",
        _ => b":",
    }
}

/// What is wrong with a row of the list.
#[tactic(auto, unfolding(crate::specs::Lines::words_of, crate::specs::Lines::row_faults))]
pub fn row_fault_words(fault: RowFault) -> &'static [u8]
    ensures words { result.now ≡ words_of (fault_no fault) row_faults }
    ensures few { length result.now ≤ 32 }
{
    match fault {
        RowFault::NoRoom => b"over 16 rows",
        RowFault::NoName => b"no field name",
        RowFault::Reserved => b"a reserved word as name",
        RowFault::Repeated => b"a name that stands before",
        RowFault::NoComma => b"no comma behind the name",
        RowFault::NoDigit => b"no digit behind the comma",
        RowFault::NoLineEnd => b"no byte 10 behind the code",
        RowFault::OutOfRange => b"a code not from 1 to 65535",
        RowFault::NotAbove => b"a code not above the one before",
    }
}

/// What is wrong at a place, from 23.
#[tactic(auto, unfolding(crate::specs::Lines::words_of, crate::specs::Lines::faults))]
pub fn fault_words(number: usize) -> &'static [u8]
    requires { (22 < number) × (number < 27) }
    ensures words { result.now ≡ words_of number faults }
    ensures few { length result.now ≤ 24 }
{
    match number {
        23 => b"bad word order",
        24 => b"unknown field",
        25 => b"number outside 32 bits",
        _ => b"too many names",
    }
}
