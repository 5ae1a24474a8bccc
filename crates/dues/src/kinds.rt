// The kinds of tokens by their numbers, as a token comes to the table: 0, the end of a text, is none of them.
use letters::token::Token;

pub const NAME: u32 = Token::Name as u32;

pub const FIELD: u32 = Token::Field as u32;

pub const NUMBER: u32 = Token::Number as u32;

pub const SIGN: u32 = Token::Sign as u32;

pub const MINUS: u32 = Token::Minus as u32;

pub const NULL: u32 = Token::Null as u32;

pub const PROC: u32 = Token::Proc as u32;

pub const TRUE: u32 = Token::True as u32;

pub const FALSE: u32 = Token::False as u32;

pub const VAR: u32 = Token::Var as u32;

pub const MALLOC: u32 = Token::Malloc as u32;

pub const SKIP: u32 = Token::Skip as u32;

pub const WHILE: u32 = Token::While as u32;

pub const IF: u32 = Token::If as u32;

pub const ELSE: u32 = Token::Else as u32;

pub const ATOM: u32 = Token::Atom as u32;

pub const OPENING_PARENTHESIS: u32 = Token::OpeningParenthesis as u32;

pub const CLOSING_PARENTHESIS: u32 = Token::ClosingParenthesis as u32;

pub const OPENING_BRACE: u32 = Token::OpeningBrace as u32;

pub const CLOSING_BRACE: u32 = Token::ClosingBrace as u32;

pub const SEMICOLON: u32 = Token::Semicolon as u32;

pub const BARS: u32 = Token::Bars as u32;

pub const DOT: u32 = Token::Dot as u32;

pub const BECOMES: u32 = Token::Becomes as u32;

pub const EQUALS: u32 = Token::Equals as u32;

pub const BELOW: u32 = Token::Below as u32;

pub const COLON: u32 = Token::Colon as u32;
