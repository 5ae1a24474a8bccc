// What is decided of the next place; nothing is written here.
ghost use Rattle.std.specs.Prelude.{◌≡◌, ℕ, ◌<◌, ◌≤◌, length};
ghost use Rattle.rules.specs.Image.{most_names};
ghost use Rattle.fieldlist.specs.Names.{Spans, words};
ghost use Rattle.fieldlist.specs.Answer.{entries_of, RightRows};
ghost use Rattle.letters.specs.Says.{Found};
ghost use Rattle.dues.specs.Words.{NameFits};
ghost use Rattle.dues.specs.Stack.{IsDue, Standing};
ghost use Rattle.judging.specs.Judged.{JudgeSays, DecideSays};

use crate::worth::{Worth, worth_of};
use crate::wrong::Wrong;
use dues::{Deed, Dues, Made, stack};
use fieldlist::FieldRows;
use fieldlist::names::Span;
use letters::places::{BAD_BYTE, Place};

/// A token that is taken: the place in the stack of what takes it, what is due instead, the node that comes out, and whether it is a name that is new.
#[derive(Clone, Copy)]
pub struct Taken {
    pub at: usize,
    pub dues: Dues,
    pub made: Option<Made>,
    pub new: bool,
}

// A token that something takes, now that its value is known: only an integer may still be too large.
fn decide(due: u32, kind: u32, value: u32, at: usize, new: bool) -> Result<Taken, Wrong>
    requires due { IsDue due }
    requires name_fits { NameFits kind value }
    ensures { DecideSays due kind value at new result }
{
    match stack::does(due, kind, value) {
        Deed::Take(dues, made) => Ok(Taken {
            at,
            dues,
            made,
            new,
        }),
        Deed::Pass(_) | Deed::Refuse => Err(Wrong::TooLarge),
    }
}

/// The next place, as far as it is read: a bad byte, a token that nothing takes, one that has no value, or one that is taken.
pub fn judge(
    text: &[u8],
    list: &[u8],
    rows: &FieldRows,
    place: Place,
    work: &[u32],
    depth: usize,
    names: &[Span],
) -> Result<Taken, Wrong>
    requires right_rows { RightRows list.now rows.now }
    requires names_bound { (length names.now ≤ most_names) × Spans text.now names.now (length names.now) }
    requires standing { Standing depth work.now }
    requires kind_nonzero { (0 < place.kind) × (place.kind ≤ 29) × (place.from < place.to) × (place.to ≤ length text.now) }
    ensures { (at line : ℕ)
        → Found text.now at line place
        → JudgeSays (entries_of list.now rows.now) text.now at line (words text.now names.now (length names.now)) depth work.now place result }
{
    let kind = place.kind;
    if kind == BAD_BYTE {
        return Err(Wrong::BadByte);
    }
    let Some(at) = stack::taker(work, depth, kind) else {
        return Err(Wrong::NotTaken);
    };
    let due = work[at];
    match worth_of(text, list, rows, place, names)? {
        Worth::Known(value) => decide(due, kind, value, at, false),
        Worth::New => decide(due, kind, names.len() as u32, at, true),
    }
}
