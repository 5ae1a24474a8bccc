// Answers of the table, as they are put together.
ghost use Rattle.std.specs.Prelude.{◌≡◌, cond, List, [], ◌∷◌, ◌+◌, ◌*◌, ◌<◌, ◌≤◌, eqb, ltb};
ghost use Rattle.reading.specs.Items.{put};
ghost use Rattle.grammar.specs.Grammar.{negated};
ghost use Rattle.dues.specs.Words.{due_words, made_items, deed_of, taken, refused, NameFits};

use crate::{Deed, Dues, Made, kinds};

// a node comes out
pub fn made(tag: u32, value: u32) -> Option<Made>
    ensures { made_items result ≡ put tag value ∷ [] }
{
    Some(Made { tag, value })
}

pub fn none_due() -> Dues
    ensures result_value { due_words result ≡ [] }
    ensures count_value { result.count ≡ 0 }
{
    Dues {
        count: 0,
        a: 0,
        b: 0,
        c: 0,
        d: 0,
    }
}

pub fn one_due(a: u32) -> Dues
    ensures result_value { due_words result ≡ a ∷ [] }
    ensures count_value { result.count ≡ 1 }
{
    Dues {
        count: 1,
        a,
        b: 0,
        c: 0,
        d: 0,
    }
}

pub fn two_due(a: u32, b: u32) -> Dues
    ensures result_value { due_words result ≡ a ∷ b ∷ [] }
    ensures count_value { result.count ≡ 2 }
{
    Dues {
        count: 2,
        a,
        b,
        c: 0,
        d: 0,
    }
}

pub fn three_due(a: u32, b: u32, c: u32) -> Dues
    ensures { due_words result ≡ a ∷ b ∷ c ∷ [] }
{
    Dues {
        count: 3,
        a,
        b,
        c,
        d: 0,
    }
}

// one thing more is due, before the others
pub fn before(a: u32, rest: Dues) -> Dues
    requires { rest.count ≤ 3 }
    ensures result_value { due_words result ≡ a ∷ due_words rest }
    ensures count_value { result.count ≡ rest.count + 1 }
{
    Dues {
        count: rest.count + 1,
        a,
        b: rest.a,
        c: rest.b,
        d: rest.c,
    }
}

// the token is taken, and this is due instead
pub fn then_one(a: u32) -> Deed
    ensures { deed_of result ≡ taken (a ∷ []) [] }
{
    Deed::Take(one_due(a), None)
}

pub fn then_two(a: u32, b: u32) -> Deed
    ensures { deed_of result ≡ taken (a ∷ b ∷ []) [] }
{
    Deed::Take(two_due(a, b), None)
}

pub fn then_three(a: u32, b: u32, c: u32) -> Deed
    ensures { deed_of result ≡ taken (a ∷ b ∷ c ∷ []) [] }
{
    Deed::Take(three_due(a, b, c), None)
}

// and nothing is due instead, but a node comes out
pub fn finishes(tag: u32, value: u32) -> Deed
    ensures { deed_of result ≡ taken [] (put tag value ∷ []) }
{
    Deed::Take(none_due(), made(tag, value))
}

// a leaf comes out, and then this is due
pub fn leaf(tag: u32, value: u32, rest: Dues) -> Deed
    ensures { deed_of result ≡ taken (due_words rest) (put tag value ∷ []) }
{
    Deed::Take(rest, made(tag, value))
}

// an integer without a sign: below 2^31
pub fn integer(value: u32, rest: Dues) -> Deed
    ensures { deed_of result ≡ cond (ltb value 2147483648) (taken (due_words rest) (put 2 value ∷ [])) refused }
{
    if value < 2147483648 {
        return leaf(2, value, rest);
    }
    Deed::Refuse
}

// what one kind of token alone does
pub fn only(k: u32, kind: u32, d: Deed) -> Deed
    ensures { deed_of result ≡ cond (eqb k kind) (deed_of d) refused }
{
    if k == kind {
        return d;
    }
    Deed::Refuse
}

// a name, and then this is due, with the name in it
pub fn named(k: u32, v: u32, a: u32) -> Deed
    requires name_fits { NameFits k v }
    requires a_bound { a < 4096 }
    ensures { deed_of result ≡ cond (eqb k 1) (taken ((a + 4096 * v) ∷ []) []) refused }
{
    if k == kinds::NAME {
        return then_one(a + 4096 * v);
    }
    Deed::Refuse
}

// an integer behind its sign: at most 2^31; of -0 the bits are 0
#[tactic(auto, using(crate::proofs::Cited::deeds_negative_integer_lemmas))]
pub fn negative_integer(v: u32) -> Deed
    ensures { deed_of result ≡ cond (ltb v 2147483649) (taken [] (put 2 (negated v) ∷ [])) refused }
{
    if v < 2147483649 {
        if v == 0 {
            return finishes(2, 0);
        }
        return finishes(2, 4294967295 - v + 1);
    }
    Deed::Refuse
}
