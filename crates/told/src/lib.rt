//! The answers as programs in C and Rust are told them (include/flagcopper.h). What each answer is told as stands in specs/, and in proofs/ that zeros are
//! none and that two answers are one.
#![tactic(auto)]

ghost use Rattle.std.specs.Prelude.{◌≡◌};

use reader::ReadError;
use rules::{Answer, End, Stop, Verdict};
use turnwords::Turned;
use writer::WriteError;

// No place and no node: both count from 0, so zero would be a real one.
const NOWHERE: u32 = 4294967295;

/// The answer of the check: verdict 1 is accepted, 2 refused with the reason's number and place.
#[repr(C)]
#[derive(Clone, Copy)]
pub struct Checked {
    pub verdict: u32,
    pub number: u32,
    pub place: u32,
}

impl From<Verdict> for Checked {
    ghost use Rattle.told.specs.Told.{checked_of};

    ghost from_gives = { λ v c. c ≡ checked_of v };

    #[tactic(auto, unfolding(crate::specs::Told::checked_of, crate::specs::Told::nowhere, crate::specs::Told::number_in, crate::specs::Told::place_in, crate::specs::Told::verdict_no, rules::specs::Numbers::verdict_numbers))]
    fn from(verdict: Verdict) -> Checked {
        match verdict {
            Verdict::Accepted => Checked {
                verdict: 1,
                number: 0,
                place: NOWHERE,
            },
            Verdict::Refused(number, place) => Checked {
                verdict: 2,
                number,
                place,
            },
        }
    }
}

/// The answer of a run: a refusal and its place, or an end, its number and node, and the steps taken.
#[repr(C)]
#[derive(Clone, Copy)]
pub struct Told {
    pub refusal: u32,
    pub place: u32,
    pub end: u32,
    pub number: u32,
    pub node: u32,
    pub steps: usize,
}

// What an answer has none of.
const NOTHING: Told = Told {
    refusal: 0,
    place: NOWHERE,
    end: 0,
    number: 0,
    node: NOWHERE,
    steps: 0,
};

impl From<Answer> for Told {
    ghost use Rattle.told.specs.Told.{told_of};

    ghost from_gives = { λ a t. t ≡ told_of a };

    #[tactic(auto, unfolding(crate::specs::Told::told_of, crate::specs::Told::nowhere, crate::specs::Told::number_in, crate::specs::Told::place_in, rules::specs::Numbers::end_no, rules::specs::Numbers::end_values, rules::specs::Numbers::stop_no, rules::specs::Numbers::stop_values))]
    fn from(answer: Answer) -> Told {
        match answer {
            Answer::Refusal(refusal, place) => Told {
                refusal,
                place,
                ..NOTHING
            },
            Answer::Ending(End::Done, steps) => Told {
                end: 1,
                steps,
                ..NOTHING
            },
            Answer::Ending(End::Stopped(Stop::Faulted(number, node)), steps) => Told {
                end: 2,
                number,
                node,
                steps,
                ..NOTHING
            },
            Answer::Ending(End::Stopped(Stop::Full(number)), steps) => Told {
                end: 3,
                number,
                steps,
                ..NOTHING
            },
            Answer::Ending(End::UsedUp, steps) => Told {
                end: 4,
                steps,
                ..NOTHING
            },
            Answer::Ending(End::Stopped(Stop::OutOfRange), steps) => Told {
                end: 5,
                steps,
                ..NOTHING
            },
            Answer::Ending(End::Stopped(Stop::NoRule), steps) => Told { steps, ..NOTHING },
        }
    }
}

/// The answer of a fair run, with the number of choices that it picked.
#[repr(C)]
#[derive(Clone, Copy)]
pub struct Fair {
    pub told: Told,
    pub picked: usize,
}

impl From<Turned> for Fair {
    ghost use Rattle.told.specs.Told.{told_of};

    ghost from_gives = { λ turned f. (f.told ≡ told_of turned.answer) × (f.picked ≡ turned.picked) };

    fn from(turned: Turned) -> Fair {
        Fair {
            told: Told::from(turned.answer),
            picked: turned.picked,
        }
    }
}

/// The answer of the reader: verdict 1 is an image with its length, 2 a refusal with its number and line. Lines count from 1; 0 is none.
#[repr(C)]
#[derive(Clone, Copy)]
pub struct Written {
    pub verdict: u32,
    pub number: u32,
    pub line: usize,
    pub length: usize,
}

impl From<Result<usize, ReadError>> for Written {
    ghost use Rattle.told.specs.Written.{written_of};

    ghost from_gives = { λ r w. w ≡ written_of r };

    #[tactic(auto, unfolding(crate::specs::Written::written_of))]
    fn from(reading: Result<usize, ReadError>) -> Written {
        match reading {
            Ok(length) => Written {
                verdict: 1,
                number: 0,
                line: 0,
                length,
            },
            Err(error) => Written {
                verdict: 2,
                number: error.number,
                line: error.line,
                length: 0,
            },
        }
    }
}

/// The answer of the writer: verdict 1 is a text with its length, 2 a refusal with its number.
#[repr(C)]
#[derive(Clone, Copy)]
pub struct Spelt {
    pub verdict: u32,
    pub number: u32,
    pub length: usize,
}

impl From<Result<usize, WriteError>> for Spelt {
    ghost use Rattle.told.specs.Images.{spelt_of};

    ghost from_gives = { λ r s. s ≡ spelt_of r };

    #[tactic(auto, unfolding(crate::specs::Images::spelt_of))]
    fn from(text: Result<usize, WriteError>) -> Spelt {
        match text {
            Ok(length) => Spelt {
                verdict: 1,
                number: 0,
                length,
            },
            Err(error) => Spelt {
                verdict: 2,
                number: error.number(),
                length: 0,
            },
        }
    }
}
