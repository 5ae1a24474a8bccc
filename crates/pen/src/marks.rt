// Reserved words and symbols by their kinds.
ghost use Rattle.std.specs.Prelude.{◌≡◌};
ghost use Rattle.writing.specs.Spell.{marks, spelled_as};

use crate::kinds::{
    ATOM, BARS, CLOSING_BRACE, CLOSING_PARENTHESIS, COLON, DOT, ELSE, EQUALS, EQUALS_SIGN, FALSE,
    IF, LESS, MALLOC, MINUS, NULL, OPENING_BRACE, OPENING_PARENTHESIS, PROC, SEMICOLON, SIGN, SKIP,
    TRUE, VAL, VAR, WHILE,
};

/// The bytes of a reserved word or a symbol; none for another kind.
#[tactic(auto, using(crate::proofs::MarkLaws::absent), unfolding(writing::specs::Spell::spelled_as, writing::specs::Spell::marks, grammar::specs::Tokens::reserved, grammar::specs::Tokens::single, grammar::specs::Tokens::double))]
pub fn spelling(kind: u32) -> &'static [u8]
    ensures { result.now ≡ spelled_as kind marks }
{
    match kind {
        SIGN | MINUS => b"-",
        NULL => b"null",
        PROC => b"proc",
        TRUE => b"true",
        FALSE => b"false",
        VAR => b"var",
        MALLOC => b"malloc",
        SKIP => b"skip",
        WHILE => b"while",
        IF => b"if",
        ELSE => b"else",
        ATOM => b"atom",
        OPENING_PARENTHESIS => b"(",
        CLOSING_PARENTHESIS => b")",
        OPENING_BRACE => b"{",
        CLOSING_BRACE => b"}",
        SEMICOLON => b";",
        BARS => b"||",
        DOT => b".",
        EQUALS_SIGN => b"=",
        EQUALS => b"==",
        LESS => b"<",
        COLON => b":",
        VAL => b"val",
        _ => b"",
    }
}
