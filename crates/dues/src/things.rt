// What a token does to a thing due: those with rows of their own, one function each. Where only a few kinds are a thing's own, the
// others are a shared row's.
ghost use Rattle.std.specs.Prelude.{◌≡◌, ℕ, ◌<◌};
ghost use Rattle.reading.specs.Table.{command, middle, test, test_left, test_minus, negative, name_first, first_dot, first_dotted, first_minus, expression, sel, sel_dot, after_minus, sel_minus, sel_minus_dot, does};
ghost use Rattle.dues.specs.Words.{deed_of, in_words, NameFits};

use crate::{
    AFTER_MINUS, BECOMES, COMMAND, Deed, EXPRESSION, FIRST, FIRST_DOTTED, FIRST_MINUS, NEGATIVE,
    NODE_ASSIGN, NODE_DIFFERENCE, NODE_FIELD_ASSIGN, NODE_SELECTION, OPERAND, PROC_NAME, SEL,
    SEL_DOT, SEL_MINUS, SEL_MINUS_DOT, SHUT_PARALLEL, SHUT_SEQUENCE, TEST_LEFT, TEST_MINUS, deeds,
    kinds, rows,
};

#[tactic(auto, unfolding(reading::specs::Table::row_for, reading::specs::Table::does, crate::specs::Words::due_word))]
pub fn at_command(k: u32, v: u32) -> Deed
    requires { NameFits k v }
    ensures { deed_of result ≡ in_words (does command k v) }
{
    match k {
        kinds::SIGN => deeds::then_two(NEGATIVE, FIRST),
        _ => rows::command_row(k, v),
    }
}

#[tactic(auto, unfolding(reading::specs::Table::row_for, reading::specs::Table::does, crate::specs::Words::due_word))]
pub fn at_middle(k: u32) -> Deed
    ensures { (v : ℕ) → deed_of result ≡ in_words (does middle k v) }
{
    match k {
        kinds::SEMICOLON => deeds::then_two(COMMAND, SHUT_SEQUENCE),
        kinds::BARS => deeds::then_two(COMMAND, SHUT_PARALLEL),
        _ => Deed::Refuse,
    }
}

#[tactic(auto, unfolding(reading::specs::Table::row_for, reading::specs::Table::does, crate::specs::Words::due_word))]
pub fn at_test(k: u32, v: u32) -> Deed
    ensures { deed_of result ≡ in_words (does test k v) }
{
    match k {
        kinds::TRUE => deeds::leaf(16, 0, deeds::one_due(COMMAND)),
        kinds::FALSE => deeds::leaf(17, 0, deeds::one_due(COMMAND)),
        _ => rows::operand_row(k, v, deeds::one_due(TEST_LEFT)),
    }
}

#[tactic(auto, using(crate::proofs::DeedLaws::no_items), unfolding(reading::specs::Table::row_for, reading::specs::Table::does, crate::specs::Words::due_word))]
pub fn at_test_left(k: u32) -> Deed
    ensures { (v : ℕ) → deed_of result ≡ in_words (does test_left k v) }
{
    match k {
        kinds::DOT => deeds::then_three(OPERAND, NODE_SELECTION, TEST_LEFT),
        _ => rows::side_row(k, None),
    }
}

#[tactic(auto, using(crate::proofs::Cited::things_at_test_minus_lemmas), unfolding(reading::specs::Table::row_for, reading::specs::Table::does, crate::specs::Words::due_word))]
pub fn at_test_minus(k: u32) -> Deed
    ensures { (v : ℕ) → deed_of result ≡ in_words (does test_minus k v) }
{
    match k {
        kinds::DOT => deeds::then_three(OPERAND, NODE_SELECTION, TEST_MINUS),
        _ => rows::side_row(k, deeds::made(3, 0)),
    }
}

// the digits behind a sign: at most 2^31, and of -0 the bits are 0
#[tactic(auto, using(crate::proofs::Cited::things_at_negative_lemmas), unfolding(reading::specs::Table::row_for, reading::specs::Table::does, crate::specs::Words::due_word))]
pub fn at_negative(k: u32, v: u32) -> Deed
    ensures { deed_of result ≡ in_words (does negative k v) }
{
    match k {
        kinds::NUMBER => deeds::negative_integer(v),
        _ => Deed::Refuse,
    }
}

#[tactic(auto, using(crate::proofs::Cited::things_at_name_first_lemmas), unfolding(reading::specs::Table::row_for, reading::specs::Table::does, crate::specs::Words::due_word))]
pub fn at_name_first(k: u32, x: u32) -> Deed
    requires { x < 128 }
    ensures { (v : ℕ) → deed_of result ≡ in_words (does (name_first x) k v) }
{
    match k {
        kinds::BECOMES => deeds::then_two(EXPRESSION, NODE_ASSIGN + 4096 * x),
        _ => rows::first_row(k, deeds::made(5, x)),
    }
}

#[tactic(auto, unfolding(reading::specs::Table::row_for, reading::specs::Table::does, crate::specs::Words::due_word))]
pub fn at_first_dot(k: u32, v: u32) -> Deed
    ensures { deed_of result ≡ in_words (does first_dot k v) }
{
    match k {
        kinds::PROC => deeds::then_two(PROC_NAME, BECOMES),
        _ => rows::operand_row(k, v, deeds::one_due(FIRST_DOTTED)),
    }
}

#[tactic(auto, using(crate::proofs::Cited::things_at_first_dotted_lemmas), unfolding(reading::specs::Table::row_for, reading::specs::Table::does, crate::specs::Words::due_word))]
pub fn at_first_dotted(k: u32) -> Deed
    ensures { (v : ℕ) → deed_of result ≡ in_words (does first_dotted k v) }
{
    match k {
        kinds::BECOMES => deeds::then_two(EXPRESSION, NODE_FIELD_ASSIGN),
        _ => rows::first_row(k, deeds::made(6, 0)),
    }
}

#[tactic(auto, using(crate::proofs::Cited::things_at_first_minus_lemmas), unfolding(reading::specs::Table::row_for, reading::specs::Table::does, crate::specs::Words::due_word, reading::specs::Table::firsts))]
pub fn at_first_minus(k: u32) -> Deed
    ensures { (v : ℕ) → deed_of result ≡ in_words (does first_minus k v) }
{
    match k {
        kinds::DOT => deeds::then_three(OPERAND, NODE_SELECTION, FIRST_MINUS),
        _ => rows::first_row(k, deeds::made(3, 0)),
    }
}

#[tactic(auto, unfolding(reading::specs::Table::row_for, reading::specs::Table::does, crate::specs::Words::due_word))]
pub fn at_expression(k: u32, v: u32) -> Deed
    ensures { deed_of result ≡ in_words (does expression k v) }
{
    match k {
        kinds::PROC => deeds::then_one(PROC_NAME),
        _ => rows::operand_row(k, v, deeds::one_due(SEL)),
    }
}

#[tactic(auto, unfolding(reading::specs::Table::row_for, reading::specs::Table::does, crate::specs::Words::due_word, reading::specs::Table::minuses))]
pub fn at_sel(k: u32) -> Deed
    ensures { (v : ℕ) → deed_of result ≡ in_words (does sel k v) }
{
    match k {
        kinds::SIGN | kinds::MINUS => deeds::then_one(AFTER_MINUS),
        kinds::DOT => deeds::then_one(SEL_DOT),
        _ => Deed::Pass(None),
    }
}

#[tactic(auto, unfolding(reading::specs::Table::row_for, reading::specs::Table::does, crate::specs::Words::due_word))]
pub fn at_sel_dot(k: u32, v: u32) -> Deed
    ensures { deed_of result ≡ in_words (does sel_dot k v) }
{
    match k {
        kinds::PROC => deeds::then_two(PROC_NAME, NODE_SELECTION),
        _ => rows::operand_row(k, v, deeds::two_due(NODE_SELECTION, SEL)),
    }
}

#[tactic(auto, unfolding(reading::specs::Table::row_for, reading::specs::Table::does, crate::specs::Words::due_word))]
pub fn at_after_minus(k: u32, v: u32) -> Deed
    ensures { deed_of result ≡ in_words (does after_minus k v) }
{
    match k {
        kinds::PROC => deeds::then_two(PROC_NAME, NODE_DIFFERENCE),
        _ => rows::operand_row(k, v, deeds::one_due(SEL_MINUS)),
    }
}

#[tactic(auto, unfolding(reading::specs::Table::row_for, reading::specs::Table::does, crate::specs::Words::due_word, reading::specs::Table::minuses))]
pub fn at_sel_minus(k: u32) -> Deed
    ensures { (v : ℕ) → deed_of result ≡ in_words (does sel_minus k v) }
{
    match k {
        kinds::SIGN | kinds::MINUS => Deed::Take(deeds::one_due(AFTER_MINUS), deeds::made(3, 0)),
        kinds::DOT => deeds::then_one(SEL_MINUS_DOT),
        _ => Deed::Pass(deeds::made(3, 0)),
    }
}

#[tactic(auto, unfolding(reading::specs::Table::row_for, reading::specs::Table::does, crate::specs::Words::due_word))]
pub fn at_sel_minus_dot(k: u32, v: u32) -> Deed
    ensures { deed_of result ≡ in_words (does sel_minus_dot k v) }
{
    match k {
        kinds::PROC => deeds::then_three(PROC_NAME, NODE_SELECTION, NODE_DIFFERENCE),
        _ => rows::operand_row(k, v, deeds::two_due(NODE_SELECTION, SEL_MINUS)),
    }
}
