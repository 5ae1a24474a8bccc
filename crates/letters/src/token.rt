// The kinds of tokens.
ghost use Rattle.std.specs.Prelude.{◌≡◌};
ghost use Rattle.letters.specs.Token.{token_no};

/// The kinds of tokens, with their numbers: names, fields, numbers, a minus, the reserved words and the symbols.
#[derive(Clone, Copy, Debug, PartialEq, Eq)]
pub enum Token {
    Name = 1,
    Field = 2,
    Number = 3,
    /// A minus with a digit directly after it.
    Sign = 4,
    /// Any other minus.
    Minus = 5,
    Null = 6,
    Proc = 7,
    True = 8,
    False = 9,
    Var = 10,
    Malloc = 11,
    Skip = 12,
    While = 13,
    If = 14,
    Else = 15,
    Atom = 16,
    OpeningParenthesis = 17,
    ClosingParenthesis = 18,
    OpeningBrace = 19,
    ClosingBrace = 20,
    Semicolon = 21,
    /// `||`
    Bars = 22,
    Dot = 23,
    /// `=`
    Becomes = 24,
    /// `==`
    Equals = 25,
    /// `<`
    Below = 26,
    Colon = 27,
    /// A word or a symbol that stands nowhere: `val`, a single `|`.
    Nowhere = 28,
}

impl From<Token> for u32 {
    ghost from_gives = { λ token number. number ≡ token_no token };

    fn from(token: Token) -> u32 {
        token as u32
    }
}
