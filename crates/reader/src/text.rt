// A whole text, place by place: each is judged first, and then written down.
ghost use Rattle.std.specs.Prelude.{◌≡◌, ◌+◌, ◌<◌, ◌≤◌, length};
ghost use Rattle.std.specs.Option.{ForSome};
ghost use Rattle.grammar.specs.Reads.{words_for};
ghost use Rattle.fieldlist.specs.Answer.{RightRows};
ghost use Rattle.building.specs.Built.{Passed};
ghost use Rattle.reader.specs.Steps.{at_end, Begins, FacesPlace, StepSays, Takes, UnderReading};
ghost use Rattle.reader.specs.Says.{TextSays};

use crate::ReadError;
use building::finish::EndError;
use building::nodes::Nodes;
use dues::{Dues, Made, stack};
use fieldlist::FieldRows;
use fieldlist::names::Span;
use judging::judge;
use letters::places;
use letters::places::Place;

const EARLY_END: u32 = 23;

const TOO_MANY_NODES: u32 = 27;

/// A text that is being read: all that was read of it stands in the lent words and in buffers of its own.
#[derive(Drop)]
pub struct Reading<'a> {
    text: &'a [u8],
    list: &'a [u8],
    rows: &'a FieldRows,
    /// The place that was read last; or where the reading ended, the one that is wrong or the end of the text.
    pub place: Place,
    /// How many things are due; they stand in the first of the lent words.
    pub depth: usize,
    /// Its nodes so far.
    pub nodes: Nodes,
    /// Where each of its names first stands: `names` of them, and room for as many as there may be.
    spans: [Span; 128],
    pub names: usize,
}

// What is wrong where the text ends on this line. Too many nodes are no line's fault.
fn at_end(fault: EndError, line: usize) -> ReadError
    ensures { result ≡ at_end fault line }
{
    match fault {
        EndError::Early => ReadError {
            number: EARLY_END,
            line,
        },
        EndError::TooManyNodes => ReadError {
            number: TOO_MANY_NODES,
            line: 0,
        },
    }
}

impl<'a> Reading<'a> {
    /// Nothing is read yet of a text, whose list is right: a command is due.
    pub fn new(text: &'a [u8], list: &'a [u8], rows: &'a FieldRows, work: &mut [u32]) -> Reading<'a>
        requires right_rows { RightRows list.now rows.now }
        requires enough { words_for (length text.now) ≤ length work.old }
        ensures { Begins text.now list.now rows.now work.old work.new result }
    {
        work[0] = dues::COMMAND;
        Reading {
            text,
            list,
            rows,
            place: Place {
                kind: 0,
                from: 0,
                to: 0,
                line: 1,
            },
            depth: 1,
            nodes: Nodes::new(10 + 2 * rows.count),
            spans: [Span { from: 0, to: 0 }; 128],
            names: 0,
        }
    }

    // The token is taken where `at` things due stand below: the nodes of what it passes, its own node, and what is due instead.
    fn take(&mut self, work: &mut [u32], at: usize, kind: u32, due: Dues, made: Option<Made>)
        requires passed { Passed work.old self.old.depth (at + 1) kind }
        requires tag_fits { ForSome made (λ m. m.tag < 65536) }
        requires room { at + 4 ≤ length work.old }
        ensures { Takes kind at due made self.old self.new work.old work.new }
    {
        let depth = self.depth;
        self.nodes.put_passed(work, depth, at + 1, kind);
        self.nodes.put(made);
        self.depth = stack::put(work, at, due);
    }

    // The place that follows what was read. A name that is new is stored behind the others.
    fn read_place(&mut self, work: &mut [u32]) -> Result<(), ReadError>
        requires right_rows { RightRows self.old.list.now self.old.rows.now }
        requires faces { FacesPlace self.old work.old }
        requires kind_nonzero { 0 < self.old.place.kind }
        ensures { StepSays self.old self.new work.old work.new result }
    {
        let Reading {
            text,
            list,
            rows,
            place,
            depth,
            names,
            ..
        } = *self;
        let taken = match judge::judge(text, list, rows, place, work, depth, &self.spans[..names]) {
            Ok(taken) => taken,
            Err(wrong) => {
                return Err(ReadError {
                    number: wrong.number(),
                    line: place.line,
                });
            }
        };
        self.take(work, taken.at, place.kind, taken.dues, taken.made);
        if taken.new {
            self.spans[names] = Span {
                from: place.from,
                to: place.to,
            };
            self.names = names + 1;
        }
        Ok(())
    }

    /// The places one after the other, until one is wrong or the text ends.
    pub fn read_all(&mut self, work: &mut [u32]) -> Result<(), ReadError>
        requires right_rows { RightRows self.old.list.now self.old.rows.now }
        requires begins { UnderReading self.old self.old.place.to self.old.place.line work.old work.old }
        ensures { TextSays self.old self.new work.old work.new result }
    {
        'places: loop {
            let Reading {
                text,
                place: last,
                ..
            } = *self;
            let place = places::next(text, last.to, last.line);
            self.place = place;
            if place.kind == 0 {
                let depth = self.depth;
                return match self.nodes.end(work, depth) {
                    Ok(()) => Ok(()),
                    Err(fault) => Err(at_end(fault, place.line)),
                };
            }
            self.read_place(work)?;
        }
    }
}
