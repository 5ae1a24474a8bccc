// Where the reading of a text ended, told to a person: what stood there and what could have stood there, by the table's own answers. The text is read
// once more, so that `read` has nothing to do with it.
ghost use Rattle.std.specs.Prelude.{◌≡◌, List, ◌≤◌, length};
ghost use Rattle.grammar.specs.Reads.{words_for};
ghost use Rattle.reading.specs.Table.{Due};
ghost use Rattle.fieldlist.specs.Answer.{RightRows};
ghost use Rattle.dues.specs.Stack.{Stacked, Standing};
ghost use Rattle.reader.specs.Taking.{KindSays, KindsSay};
ghost use Rattle.reader.specs.Why.{why_of, WhySays};

use crate::text::Reading;
use crate::{ReadError, clear};
use building::nodes;
use dues::stack;
use fieldlist::FieldRows;
use letters::places::Place;

// `why` is 0, and the text is read whole; or it is the number of what is wrong, 22 to 27, and `line` its line. There stands what is from byte `from`
// up to `to`, of this kind: 1 to 28 a token's, 29 a bad byte; 0 is the end of the text. could[k]: the text can go on there with a token of kind k;
// could[0]: it can end there.
#[derive(Clone, Copy)]
pub struct Why {
    pub why: u32,
    pub line: usize,
    pub kind: u32,
    pub from: usize,
    pub to: usize,
    pub could: [bool; 29],
}

// Whether the stack takes a token of this kind.
fn takes(work: &[u32], depth: usize, k: u32) -> bool
    requires { Standing depth work.now }
    ensures { (ds : List Due) → Stacked ds depth work.now → KindSays ds k result }
{
    stack::taker(work, depth, k).is_some()
}

// Whether the text may end, and each kind from 1 on.
fn kinds(work: &[u32], depth: usize) -> [bool; 29]
    requires { Standing depth work.now }
    ensures { (ds : List Due) → Stacked ds depth work.now → KindsSay ds result }
{
    let mut could = [false; 29];
    could[0] = nodes::all_pass(work, depth);
    for k in 1..29 {
        could[k] = takes(work, depth, k as u32);
    }
    could
}

fn told(read: Result<(), ReadError>, place: Place, could: [bool; 29]) -> Why
    ensures { result ≡ why_of read place could }
{
    let (why, line) = match read {
        Ok(()) => (0, place.line),
        Err(error) => (error.number, error.line),
    };
    Why {
        why,
        line,
        kind: place.kind,
        from: place.from,
        to: place.to,
        could,
    }
}

/// Reads a text once more, with a list that is right and enough words lent, and tells where the reading ends.
pub fn why_refused<'a>(text: &'a [u8], list: &'a [u8], rows: &'a FieldRows, work: &mut [u32]) -> Why
    requires right_rows { RightRows list.now rows.now }
    requires text_in_bounds { words_for (length text.now) ≤ length work.old }
    ensures { WhySays list.now text.now rows.now result work.old work.new }
{
    let mut reading = Reading::new(text, list, rows, work);
    let read = reading.read_all(work);
    let could = kinds(work, reading.depth);
    clear(work, text.len());
    told(read, reading.place, could)
}
