//! Why a script is refused.

ghost use Rattle.std.specs.Prelude.{◌≡◌};
ghost use Rattle.image.specs.Refusals.{number_of, place_of, refused};

use rules::Verdict;
use std::error::Error;
use std::fmt;

/// Why the check refuses a script. The number in a case is the place: the position of a code, from 0, or a node.
#[derive(Clone, Copy, Debug, PartialEq, Eq)]
pub enum Refusal {
    /// 10: fewer words are lent than a workspace has.
    Workspace,
    /// 1: the script is shorter than its contents.
    Short,
    /// 2: a start or a count in the contents is wrong.
    Contents,
    /// 3: the length isn't what the contents say.
    Length,
    /// 4: a code is zero, or not above the one before.
    Code(u32),
    /// 5: a node has no tag.
    Tag(u32),
    /// 6: a word that the row of the node's tag doesn't list isn't zero.
    Unused(u32),
    /// 7: a word of the node doesn't fit its role.
    Operand(u32),
    /// 8: a node isn't a child exactly once, or the root is no command.
    Uses(u32),
    /// 9: a node uses a name where it isn't declared.
    Name(u32),
}

impl Refusal {
    /// The number of the broken rule, from 1 to 10.
    pub fn number(self) -> u32
        ensures { result ≡ number_of self }
    {
        match self {
            Refusal::Workspace => 10,
            Refusal::Short => 1,
            Refusal::Contents => 2,
            Refusal::Length => 3,
            Refusal::Code(_) => 4,
            Refusal::Tag(_) => 5,
            Refusal::Unused(_) => 6,
            Refusal::Operand(_) => 7,
            Refusal::Uses(_) => 8,
            Refusal::Name(_) => 9,
        }
    }

    /// Where the rule is broken; 0 where a rule has one place alone.
    pub fn place(self) -> u32
        ensures { result ≡ place_of self }
    {
        match self {
            Refusal::Workspace | Refusal::Short | Refusal::Contents | Refusal::Length => 0,
            Refusal::Code(place)
            | Refusal::Tag(place)
            | Refusal::Unused(place)
            | Refusal::Operand(place)
            | Refusal::Uses(place)
            | Refusal::Name(place) => place,
        }
    }
}

impl From<Refusal> for Verdict {
    ghost from_gives = { λ refusal verdict. verdict ≡ refused refusal };

    fn from(refusal: Refusal) -> Verdict {
        Verdict::Refused(refusal.number(), refusal.place())
    }
}

impl fmt::Display for Refusal {
    fn fmt<W: fmt::Write>(&self, f: &mut fmt::Formatter<W>) -> fmt::Result {
        match self {
            Refusal::Workspace => write!(f, "the workspace is too short"),
            Refusal::Short => write!(f, "the script is shorter than its contents"),
            Refusal::Contents => write!(f, "the contents are wrong"),
            Refusal::Length => write!(f, "the length is wrong"),
            Refusal::Code(place) => write!(f, "the code at position {place} is wrong"),
            Refusal::Tag(place) => write!(f, "node {place} has no tag"),
            Refusal::Unused(place) => write!(f, "node {place} has an unused word that isn't zero"),
            Refusal::Operand(place) => write!(f, "node {place} has a word that doesn't fit"),
            Refusal::Uses(place) => write!(f, "node {place} isn't used exactly once"),
            Refusal::Name(place) => write!(f, "node {place} uses a name where it isn't declared"),
        }
    }
}

impl Error for Refusal {}
