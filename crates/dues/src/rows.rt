// Rows of the table that several things due share.
ghost use Rattle.std.specs.Prelude.{◌≡◌, List, [], ◌∷◌, map, ℕ, ◌≤◌};
ghost use Rattle.reading.specs.Table.{Due, refuse, row_for, operands, commands, firsts, sides};
ghost use Rattle.dues.specs.Words.{due_word, due_words, made_items, deed_of, in_words, taken, with_items, NameFits};

use crate::{
    ATOM_OPEN, BODY, CLOSE, CLOSE_CALL, COMMAND, Deed, Dues, EXPRESSION, FIRST, FIRST_DOT,
    FIRST_MINUS, MALLOC_OPEN, MIDDLE, Made, NAME_FIRST, NEGATIVE, NODE_EQUAL, NODE_LESS,
    NODE_WHILE, OPERAND, OTHERWISE, TEST, TEST_MINUS, VAR_NAME, deeds, kinds,
};

// a group or an argument, and then these
fn opening(rest: Dues) -> Deed
    requires { rest.count ≤ 2 }
    ensures { deed_of result ≡ taken (25 ∷ 11 ∷ due_words rest) [] }
{
    let close = deeds::before(CLOSE, rest);
    Deed::Take(deeds::before(EXPRESSION, close), None)
}

// An operand, and then these.
#[tactic(auto, using(crate::proofs::Cited::rows_operand_row_lemmas), unfolding(reading::specs::Table::row_for, reading::specs::Table::operands, crate::specs::Words::due_word))]
pub fn operand_row(k: u32, v: u32, rest: Dues) -> Deed
    requires { rest.count ≤ 2 }
    ensures { (ds : List Due) → due_words rest ≡ map due_word ds → deed_of result ≡ in_words (row_for k v (operands ds) refuse) }
{
    match k {
        kinds::NAME => deeds::leaf(5, v, rest),
        kinds::FIELD => deeds::leaf(1, v, rest),
        kinds::NUMBER => deeds::integer(v, rest),
        kinds::SIGN => Deed::Take(deeds::before(NEGATIVE, rest), None),
        kinds::NULL => deeds::leaf(4, 0, rest),
        kinds::OPENING_PARENTHESIS => opening(rest),
        _ => Deed::Refuse,
    }
}

// A command begins, and no sign begins it.
#[tactic(auto, using(crate::proofs::Cited::rows_command_row_lemmas), unfolding(reading::specs::Table::row_for, reading::specs::Table::commands, crate::specs::Words::due_word))]
pub fn command_row(k: u32, v: u32) -> Deed
    requires { NameFits k v }
    ensures { deed_of result ≡ in_words (row_for k v commands refuse) }
{
    match k {
        kinds::NAME => deeds::then_one(NAME_FIRST + 4096 * v),
        kinds::FIELD => deeds::leaf(1, v, deeds::one_due(FIRST)),
        kinds::NUMBER => deeds::integer(v, deeds::one_due(FIRST)),
        kinds::NULL => deeds::leaf(4, 0, deeds::one_due(FIRST)),
        kinds::VAR => deeds::then_one(VAR_NAME),
        kinds::MALLOC => deeds::then_one(MALLOC_OPEN),
        kinds::SKIP => deeds::finishes(37, 0),
        kinds::WHILE => deeds::then_two(TEST, NODE_WHILE),
        kinds::IF => deeds::then_two(TEST, OTHERWISE),
        kinds::ATOM => deeds::then_one(ATOM_OPEN),
        kinds::OPENING_PARENTHESIS => opening(deeds::one_due(FIRST)),
        kinds::OPENING_BRACE => deeds::then_two(COMMAND, MIDDLE),
        _ => Deed::Refuse,
    }
}

// Behind a selection with which a command began: a dot, a minus of either kind, an argument. A node comes out first, where `made` is one.
#[tactic(auto, unfolding(reading::specs::Table::row_for, reading::specs::Table::minuses, reading::specs::Table::arguments, reading::specs::Table::firsts, crate::specs::Words::due_word))]
pub fn first_row(k: u32, made: Option<Made>) -> Deed
    ensures { (v : ℕ) → deed_of result ≡ with_items (made_items made) (in_words (row_for k v firsts refuse)) }
{
    match k {
        kinds::SIGN | kinds::MINUS => Deed::Take(deeds::two_due(OPERAND, FIRST_MINUS), made),
        kinds::OPENING_PARENTHESIS => Deed::Take(deeds::two_due(EXPRESSION, CLOSE_CALL), made),
        kinds::DOT => Deed::Take(deeds::one_due(FIRST_DOT), made),
        _ => Deed::Refuse,
    }
}

// Behind the left side of a test: a minus of either kind, a comparison. A node comes out first, where `made` is one.
#[tactic(auto, unfolding(reading::specs::Table::row_for, reading::specs::Table::minuses, reading::specs::Table::sides, crate::specs::Words::due_word))]
pub fn side_row(k: u32, made: Option<Made>) -> Deed
    ensures { (v : ℕ) → deed_of result ≡ with_items (made_items made) (in_words (row_for k v sides refuse)) }
{
    match k {
        kinds::SIGN | kinds::MINUS => Deed::Take(deeds::two_due(OPERAND, TEST_MINUS), made),
        kinds::EQUALS => Deed::Take(deeds::three_due(EXPRESSION, NODE_EQUAL, BODY), made),
        kinds::BELOW => Deed::Take(deeds::three_due(EXPRESSION, NODE_LESS, BODY), made),
        _ => Deed::Refuse,
    }
}
