// What a token does to a thing due that is given by its number n, its tag t and its name x: some six numbers a function, since one
// `match` of all would be long to prove.
ghost use Rattle.std.specs.Prelude.{◌≡◌, ℕ, ◌<◌, ◌≤◌};
ghost use Rattle.dues.specs.Words.{deed_of, due_by, done_to, NameFits};

use crate::{
    CLOSE_ATOM, CLOSE_MALLOC, COMMAND, Deed, EXPRESSION, MALLOC_NAME, NODE_FIELD_ASSIGN, NODE_IF,
    NODE_PROC, NODE_VAR, PROC_COLON, VAR_SEMI, deeds, kinds, rows, things,
};

// 1 to 7: commands and their beginnings
#[tactic(auto, using(crate::proofs::Cited::groups_beginning_lemmas), unfolding(crate::specs::Words::due_by, crate::specs::Words::things, reading::specs::Table::does, reading::specs::Table::row_for, crate::specs::Words::due_word))]
pub fn beginning(n: u32, x: u32, k: u32, v: u32) -> Deed
    requires name_fits { NameFits k v }
    requires le_n { (1 ≤ n) × (n ≤ 7) × (x < 128) }
    ensures { (t : ℕ) → deed_of result ≡ done_to (due_by n t x) k v }
{
    match n {
        1 => things::at_command(k, v),
        2 => rows::command_row(k, v),
        3 => deeds::named(k, v, VAR_SEMI),
        4 => deeds::only(
            k,
            kinds::SEMICOLON,
            deeds::then_two(COMMAND, NODE_VAR + 4096 * x),
        ),
        5 => deeds::only(k, kinds::OPENING_PARENTHESIS, deeds::then_one(MALLOC_NAME)),
        6 => deeds::named(k, v, CLOSE_MALLOC),
        _ => deeds::only(
            k,
            kinds::OPENING_PARENTHESIS,
            deeds::then_two(COMMAND, CLOSE_ATOM),
        ),
    }
}

// 8 to 13: what ends or joins
#[tactic(auto, using(crate::proofs::DeedLaws::decided, crate::proofs::Cited::groups_ending_lemmas), unfolding(crate::specs::Words::due_by, crate::specs::Words::things, reading::specs::Table::does, reading::specs::Table::row_for, crate::specs::Words::due_word))]
pub fn ending(n: u32, t: u32, x: u32, k: u32) -> Deed
    requires { (8 ≤ n) × (n ≤ 13) }
    ensures { (v : ℕ) → deed_of result ≡ done_to (due_by n t x) k v }
{
    match n {
        8 => things::at_middle(k),
        9 => deeds::only(k, kinds::CLOSING_BRACE, deeds::finishes(t, 0)),
        10 => deeds::only(k, kinds::ELSE, deeds::then_two(COMMAND, NODE_IF)),
        11 => deeds::only(
            k,
            kinds::CLOSING_PARENTHESIS,
            Deed::Take(deeds::none_due(), None),
        ),
        12 => deeds::only(k, kinds::CLOSING_PARENTHESIS, deeds::finishes(t, x)),
        _ => Deed::Pass(deeds::made(t, x)),
    }
}

// 14 to 19: tests and operands
#[tactic(auto, unfolding(crate::specs::Words::due_by, crate::specs::Words::things, reading::specs::Table::does, reading::specs::Table::row_for, crate::specs::Words::due_word))]
pub fn testing(n: u32, x: u32, k: u32, v: u32) -> Deed
    requires { (14 ≤ n) × (n ≤ 19) × (x < 128) }
    ensures { (t : ℕ) → deed_of result ≡ done_to (due_by n t x) k v }
{
    match n {
        14 => things::at_test(k, v),
        15 => things::at_test_left(k),
        16 => things::at_test_minus(k),
        17 => rows::operand_row(k, v, deeds::none_due()),
        18 => things::at_negative(k, v),
        _ => things::at_name_first(k, x),
    }
}

// 20 to 25: a command that began with a selection, and the beginning of an expression
#[tactic(auto, using(crate::proofs::DeedLaws::no_items, crate::proofs::Cited::groups_selecting_lemmas), unfolding(crate::specs::Words::due_by, crate::specs::Words::things, reading::specs::Table::does, reading::specs::Table::row_for, crate::specs::Words::due_word))]
pub fn selecting(n: u32, k: u32, v: u32) -> Deed
    requires { (20 ≤ n) × (n ≤ 25) }
    ensures { (t x : ℕ) → deed_of result ≡ done_to (due_by n t x) k v }
{
    match n {
        20 => rows::first_row(k, None),
        21 => things::at_first_dot(k, v),
        22 => things::at_first_dotted(k),
        23 => things::at_first_minus(k),
        24 => deeds::only(
            k,
            kinds::BECOMES,
            deeds::then_two(EXPRESSION, NODE_FIELD_ASSIGN),
        ),
        _ => things::at_expression(k, v),
    }
}

// 26 to 32: the rest of an expression, and a proc
#[tactic(auto, using(crate::proofs::Cited::groups_going_on_lemmas), unfolding(crate::specs::Words::due_by, crate::specs::Words::things, reading::specs::Table::does, reading::specs::Table::row_for, crate::specs::Words::due_word))]
pub fn going_on(n: u32, x: u32, k: u32, v: u32) -> Deed
    requires name_fits { NameFits k v }
    requires le_n { (26 ≤ n) × (n ≤ 32) × (x < 128) }
    ensures { (t : ℕ) → deed_of result ≡ done_to (due_by n t x) k v }
{
    match n {
        26 => things::at_sel(k),
        27 => things::at_sel_dot(k, v),
        28 => things::at_after_minus(k, v),
        29 => things::at_sel_minus(k),
        30 => things::at_sel_minus_dot(k, v),
        31 => deeds::named(k, v, PROC_COLON),
        _ => deeds::only(
            k,
            kinds::COLON,
            deeds::then_two(COMMAND, NODE_PROC + 4096 * x),
        ),
    }
}
