// A node of an item: its words by their roles, its bytes behind those of the nodes before it, and its first node.
ghost use Rattle.std.specs.Prelude.{◌≡◌, ◌+◌, ◌*◌, ◌-◌, ◌<◌, ◌≤◌, length, get_or};
ghost use Rattle.std.proofs.Math.Option.{some};
ghost use Rattle.rules.specs.Image.{row_of};
ghost use Rattle.reading.specs.Links.{word_by, back};
ghost use Rattle.tables.specs.Puts.{Falling, Joined, Puts};

use crate::bytes;
use rules::{Node, Role, Row};

// A word, of its half of the value; a child is the last of the nodes that are left, which end at e. Items of a tree never ask it of 0;
// other items may, and nothing is wrong then.
fn word_by(p: Role, v: usize, e: usize) -> usize
    requires { (v < 65536) × (e < 65536) }
    ensures { (result ≡ word_by p v e) × (result < 65536) }
{
    match p {
        Role::Unused => 0,
        Role::Index | Role::Half | Role::Uses | Role::Binds => v,
        Role::Child(_) => e.saturating_sub(1),
    }
}

// The first node of the last of them.
fn first_at(firsts: &[u16], e: usize) -> usize
    requires falling { Falling firsts.now }
    requires firsts_nonzero { (0 < length firsts.now) × (e ≤ length firsts.now) }
    ensures { (result ≡ get_or firsts.now (e - 1) 0) × (result ≤ e) }
{
    usize::from(firsts[e.saturating_sub(1)])
}

// Where the nodes that are left end when the word is filled.
fn end_of(firsts: &[u16], p: Role, e: usize) -> usize
    requires falling { Falling firsts.now }
    requires firsts_nonzero { (0 < length firsts.now) × (e ≤ length firsts.now) }
    ensures { (result ≡ back firsts.now p e) × (result ≤ e) }
{
    match p {
        Role::Unused | Role::Index | Role::Half | Role::Uses | Role::Binds => e,
        Role::Child(_) => first_at(firsts, e),
    }
}

// A node with the first node of its tree.
#[derive(Clone, Copy)]
struct Linked {
    node: Node,
    first: usize,
}

// The words are filled from the last to the first: each child ends where the nodes end that are left.
fn by_row(firsts: &[u16], m: usize, tag: usize, value: u32, row: Row) -> Linked
    requires falling { Falling firsts.now }
    requires m_in_bounds { (m < length firsts.now) × (m < 65536) }
    ensures { Joined m tag value firsts.now (some row) result.node result.first }
{
    let low = (value % 65536) as usize;
    let high = (value / 65536) as usize;
    let c = word_by(row.c, 0, m);
    let e = end_of(firsts, row.c, m);
    let b = word_by(row.b, high, e);
    let f = end_of(firsts, row.b, e);
    let a = word_by(row.a, low, f);
    let first = end_of(firsts, row.a, f);
    Linked {
        node: Node { tag, a, b, c },
        first,
    }
}

fn of_item(firsts: &[u16], m: usize, tag: usize, value: u32) -> Linked
    requires falling { Falling firsts.now }
    requires m_in_bounds { (m < length firsts.now) × (m < 65536) }
    ensures { Joined m tag value firsts.now (row_of tag) result.node result.first }
{
    match image::operands(tag) {
        None => Linked {
            node: Node {
                tag,
                a: 0,
                b: 0,
                c: 0,
            },
            first: m,
        },
        Some(row) => by_row(firsts, m, tag, value, row),
    }
}

/// Node `m`, of an item: its bytes behind the `m` nodes before it, which begin at byte `start`, and its first node.
#[tactic(auto, using(crate::proofs::NodeLaws::puts, crate::proofs::Cited::nodes_put_node_lemmas))]
pub fn put_node(img: &mut [u8], firsts: &mut [u16], start: usize, m: usize, tag: usize, value: u32)
    requires falling { Falling firsts.old }
    requires m_in_bounds { (m < length firsts.old) × (m < 65536) × (tag < 65536) × (start + 8 * m + 8 ≤ length img.old) }
    ensures { Puts start m tag value img.old firsts.old img.new firsts.new }
{
    let Linked { node, first } = of_item(firsts, m, tag, value);
    bytes::put_words(img, start + 8 * m, node);
    firsts[m] = first as u16;
}
