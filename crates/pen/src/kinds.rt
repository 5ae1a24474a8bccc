// The kinds of tokens, by the numbers that the grammar gives them; 0 is no token.
// Numbers and no enum, since the grammar's definitions count the kinds, and a gap is told by the number of the last one.
pub const NONE: u32 = 0;

pub const NAME: u32 = 1;

pub const FIELD_NAME: u32 = 2;

pub const NUMBER: u32 = 3;

pub const SIGN: u32 = 4;

pub const MINUS: u32 = 5;

pub const NULL: u32 = 6;

pub const PROC: u32 = 7;

pub const TRUE: u32 = 8;

pub const FALSE: u32 = 9;

pub const VAR: u32 = 10;

pub const MALLOC: u32 = 11;

pub const SKIP: u32 = 12;

pub const WHILE: u32 = 13;

pub const IF: u32 = 14;

pub const ELSE: u32 = 15;

pub const ATOM: u32 = 16;

pub const OPENING_PARENTHESIS: u32 = 17;

pub const CLOSING_PARENTHESIS: u32 = 18;

pub const OPENING_BRACE: u32 = 19;

pub const CLOSING_BRACE: u32 = 20;

pub const SEMICOLON: u32 = 21;

pub const BARS: u32 = 22;

pub const DOT: u32 = 23;

pub const EQUALS_SIGN: u32 = 24;

pub const EQUALS: u32 = 25;

pub const LESS: u32 = 26;

pub const COLON: u32 = 27;

/// A reserved word that stands nowhere.
pub const VAL: u32 = 28;
