// The stack of what is due, in the first words of a lent list; the top is the last of them. A token is looked at from the top down, and nothing
// is written until it is known what takes it.
ghost use Rattle.std.specs.Prelude.{◌≡◌, List, ◌∷◌, ℕ, ◌+◌, ◌<◌, ◌≤◌, length};
ghost use Rattle.reading.specs.Table.{Due, does};
ghost use Rattle.dues.specs.Words.{due_word, due_words, deed_of, in_words, NameFits};
ghost use Rattle.dues.specs.Stack.{DueFits, IsDue, Stacked, Standing, TakerSays, Piled};

use crate::{Deed, Dues, groups};

// What a token of kind k and value v does to the thing due that a word stands for.
pub fn does(w: u32, k: u32, v: u32) -> Deed
    requires due { IsDue w }
    requires name_fits { NameFits k v }
    ensures { (d : Due) → DueFits d → w ≡ due_word d → deed_of result ≡ in_words (does d k v) }
{
    let n = w % 64;
    let t = w / 64 % 64;
    let x = w / 4096;
    if n < 8 {
        return groups::beginning(n, x, k, v);
    }
    if n < 14 {
        return groups::ending(n, t, x, k);
    }
    if n < 20 {
        return groups::testing(n, x, k, v);
    }
    if n < 26 {
        return groups::selecting(n, k, v);
    }
    groups::going_on(n, x, k, v)
}

/// Where in the stack a token of kind k is taken: asked from the top down, past what nothing is due of any more.
pub fn taker(ws: &[u32], depth: usize, k: u32) -> Option<usize>
    requires { Standing depth ws.now }
    ensures { (ds : List Due) → Stacked ds depth ws.now → TakerSays ds k result }
{
    let mut i = depth;
    while 0 < i {
        i -= 1;
        match does(ws[i], k, 0) {
            Deed::Take(_, _) => return Some(i),
            Deed::Pass(_) => {}
            Deed::Refuse => return None,
        }
    }
    None
}

// One word on the n that are there.
fn push(ws: &mut [u32], n: usize, w: u32) -> usize
    requires { n < length ws.old }
    ensures by_index { (vs : List ℕ) (m : ℕ) (entry : List ℕ) → Piled vs m n entry ws.old → Piled (w ∷ vs) m result entry ws.new }
    ensures value { (result ≡ n + 1) × (length ws.new ≡ length ws.old) }
{
    ws[n] = w;
    n + 1
}

/// These on the n that are there, the first of them on top.
pub fn put(ws: &mut [u32], n: usize, dues: Dues) -> usize
    requires { n + 4 ≤ length ws.old }
    ensures { Piled (due_words dues) n result ws.old ws.new }
{
    match dues.count {
        0 => n,
        1 => push(ws, n, dues.a),
        2 => {
            let p = push(ws, n, dues.b);
            push(ws, p, dues.a)
        }
        3 => {
            let p = push(ws, n, dues.c);
            let q = push(ws, p, dues.b);
            push(ws, q, dues.a)
        }
        _ => {
            let p = push(ws, n, dues.d);
            let q = push(ws, p, dues.c);
            let s = push(ws, q, dues.b);
            push(ws, s, dues.a)
        }
    }
}
