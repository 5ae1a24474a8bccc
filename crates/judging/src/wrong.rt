// What is wrong with a place.
ghost use Rattle.std.specs.Prelude.{◌≡◌};
ghost use Rattle.judging.specs.Wrong.{wrong_no};

/// What is wrong with the next place of a text.
#[derive(Clone, Copy, Debug, PartialEq, Eq)]
pub enum Wrong {
    /// No piece of a text begins with this byte.
    BadByte,
    /// Nothing that is due takes this token.
    NotTaken,
    /// No row of the list has this name.
    NoField,
    /// No integer is so large.
    TooLarge,
    /// A new name, where there are 128.
    OneNameMore,
}

impl Wrong {
    /// Its number, 22 to 26.
    pub fn number(self) -> u32
        ensures { result ≡ wrong_no self }
    {
        match self {
            Wrong::BadByte => 22,
            Wrong::NotTaken => 23,
            Wrong::NoField => 24,
            Wrong::TooLarge => 25,
            Wrong::OneNameMore => 26,
        }
    }
}
