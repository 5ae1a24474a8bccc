// What is wrong with a row.
ghost use Rattle.std.specs.Prelude.{◌≡◌};
ghost use Rattle.fieldlist.specs.Fault.{fault_no};

/// What is wrong with a row, in the order in which it is looked for.
#[derive(Clone, Copy, Debug, PartialEq, Eq)]
pub enum RowFault {
    /// There are sixteen rows before it.
    NoRoom,
    /// No lower-case letter begins it.
    NoName,
    /// Its name is a reserved word.
    Reserved,
    /// Its name stands in a row before it.
    Repeated,
    /// No comma stands behind the name.
    NoComma,
    /// No digit stands behind the comma.
    NoDigit,
    /// No byte 10 stands behind the digits.
    NoLineEnd,
    /// The code is 0, or above 65,535.
    OutOfRange,
    /// The code is not above the one before.
    NotAbove,
}

impl RowFault {
    /// Its number, 1 to 9.
    pub fn number(self) -> u32
        ensures { result ≡ fault_no self }
    {
        match self {
            RowFault::NoRoom => 1,
            RowFault::NoName => 2,
            RowFault::Reserved => 3,
            RowFault::Repeated => 4,
            RowFault::NoComma => 5,
            RowFault::NoDigit => 6,
            RowFault::NoLineEnd => 7,
            RowFault::OutOfRange => 8,
            RowFault::NotAbove => 9,
        }
    }
}
