// Which tokens stand together with no gap between them, by their kinds.
ghost use Rattle.std.specs.Prelude.{◌≡◌};
ghost use Rattle.grammar.specs.Classes.{among};
ghost use Rattle.writing.specs.Spell.{opening, closing, called, tight};

use crate::kinds::{
    ATOM, CLOSING_BRACE, CLOSING_PARENTHESIS, COLON, DOT, FIELD_NAME, MALLOC, NAME, OPENING_BRACE,
    OPENING_PARENTHESIS, SEMICOLON, SIGN,
};

// no gap stands behind these
#[tactic(auto, using(crate::proofs::GapLaws::listed), unfolding(writing::specs::Spell::opening))]
fn opens(kind: u32) -> bool
    ensures { result ≡ among kind opening }
{
    matches!(kind, SIGN | OPENING_PARENTHESIS | OPENING_BRACE | DOT)
}

// nor before these
#[tactic(auto, using(crate::proofs::GapLaws::listed), unfolding(writing::specs::Spell::closing))]
fn closes(kind: u32) -> bool
    ensures { result ≡ among kind closing }
{
    matches!(
        kind,
        CLOSING_PARENTHESIS | CLOSING_BRACE | SEMICOLON | DOT | COLON
    )
}

// nor between these and an opening parenthesis
#[tactic(auto, using(crate::proofs::GapLaws::listed), unfolding(writing::specs::Spell::called))]
fn is_called(kind: u32) -> bool
    ensures { result ≡ among kind called }
{
    matches!(
        kind,
        NAME | FIELD_NAME | MALLOC | ATOM | CLOSING_PARENTHESIS
    )
}

/// Does a token stand right behind another, by the kinds of the two?
#[tactic(auto, unfolding(writing::specs::Spell::tight))]
pub fn is_tight(last: u32, next: u32) -> bool
    ensures { result ≡ tight last next }
{
    opens(last) || closes(next) || next == OPENING_PARENTHESIS && is_called(last)
}
