// What a token of a place is worth. The names so far are known by where each of them first stands in the text.
ghost use Rattle.std.specs.Prelude.{◌≡◌, ◌≤◌, ◌<◌, length};
ghost use Rattle.std.specs.Option.{ForSome};
ghost use Rattle.std.proofs.Math.Seq.{slice};
ghost use Rattle.rules.specs.Image.{most_names};
ghost use Rattle.letters.specs.Says.{piece_by};
ghost use Rattle.fieldlist.specs.Names.{Spans, words};
ghost use Rattle.fieldlist.specs.Answer.{entries_of, RightRows};
ghost use Rattle.judging.specs.Worth.{name_worth, field_worth, number_worth, WorthSays};

use crate::wrong::Wrong;
use fieldlist::names::{Span, name_index};
use fieldlist::{FieldRows, index_of};
use letters::numbers::number_of;
use letters::places::Place;
use letters::token::Token;

const NAME: u32 = Token::Name as u32;

const FIELD: u32 = Token::Field as u32;

const NUMBER: u32 = Token::Number as u32;

const MOST_NAMES: usize = 128;

// 2^31: the digits of the least integer say it, behind a sign
const LARGEST: u64 = 2147483648;

/// The number of a name or a field or an integer that is known; or a name that is new.
#[derive(Clone, Copy)]
pub enum Worth {
    Known(u32),
    New,
}

// of the place of a name among the n names so far
#[tactic(auto, using(crate::proofs::WorthLaws::name_lemmas))]
fn of_name(i: Option<usize>, n: usize) -> Result<Worth, Wrong>
    requires { ForSome i (λ x. x < most_names) }
    ensures { result ≡ name_worth i n }
{
    match i {
        Some(i) => Ok(Worth::Known(i as u32)),
        None if n < MOST_NAMES => Ok(Worth::New),
        None => Err(Wrong::OneNameMore),
    }
}

// of the place of a field's row; fields are counted from 1
#[tactic(auto, using(crate::proofs::WorthLaws::field_lemmas))]
fn of_field(i: Option<usize>) -> Result<Worth, Wrong>
    requires { ForSome i (λ x. x < 16) }
    ensures { result ≡ field_worth i }
{
    match i {
        Some(i) => Ok(Worth::Known(i as u32 + 1)),
        None => Err(Wrong::NoField),
    }
}

#[tactic(auto, using(crate::proofs::WorthLaws::number_lemmas))]
fn of_number(n: u64) -> Result<Worth, Wrong>
    ensures { result ≡ number_worth n }
{
    if n > LARGEST {
        return Err(Wrong::TooLarge);
    }
    Ok(Worth::Known(n as u32))
}

/// What the token of a place is worth that is no bad byte, where these are the names so far.
pub fn worth_of(
    text: &[u8],
    list: &[u8],
    rows: &FieldRows,
    place: Place,
    names: &[Span],
) -> Result<Worth, Wrong>
    requires right_rows { RightRows list.now rows.now }
    requires names_bound { (length names.now ≤ most_names) × Spans text.now names.now (length names.now) }
    requires from_le_to { (place.from ≤ place.to) × (place.to ≤ length text.now) }
    requires kind_bound { place.kind < 29 }
    ensures { WorthSays (entries_of list.now rows.now)
        (words text.now names.now (length names.now))
        (piece_by place.kind (slice place.from place.to text.now))
        place.kind
        result }
{
    let word = &text[place.from..place.to];
    match place.kind {
        NAME => of_name(name_index(text, names, word), names.len()),
        FIELD => of_field(index_of(list, rows, word)),
        NUMBER => of_number(number_of(text, place.from, place.to)),
        _ => Ok(Worth::Known(0)),
    }
}
