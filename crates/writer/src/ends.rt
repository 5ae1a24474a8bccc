// How expressions end and begin, once a node from node 0 upward.
ghost use Rattle.std.specs.Prelude.{◌≡◌, ◌+◌, ◌<◌, ◌≤◌, length, get_or, false};
ghost use Rattle.rules.specs.Image.{nodes_of, node_at, tree_at};
ghost use Rattle.writer.specs.Ends.{edges, asks_by, joins, ends_of, EndsTo};

use crate::forms::How;
use image::Script;

const DIFFERENCE: usize = 3;

const SELECTION: usize = 6;

/// How an expression ends and begins.
#[derive(Clone, Copy)]
pub struct Edges {
    /// it ends in a bare proc
    pub bare: bool,
    /// it begins with a sign
    pub signed: bool,
}

/// Neither.
pub const PLAIN: Edges = Edges {
    bare: false,
    signed: false,
};

impl How {
    /// Are there parentheses around a child of this tag, that ends and begins so?
    pub fn asks(self, tag: usize, edges: Edges, front: bool) -> bool
        ensures { result ≡ asks_by self tag edges front }
    {
        match self {
            How::Left => edges.bare,
            How::LeftOfDot => tag == DIFFERENCE || edges.bare,
            How::Right => tag == DIFFERENCE,
            How::RightOfDot => tag == DIFFERENCE || tag == SELECTION,
            How::Callee => edges.bare || front && edges.signed,
            How::Target => (tag == DIFFERENCE || edges.bare) || front && edges.signed,
            How::Nothing | How::Name | How::Field | How::Whole | How::Behind => false,
        }
    }
}

// of two children and what is between them
fn join(script: &Script<'_>, ends: &[Edges], left: How, right: How, a: usize, b: usize) -> Edges
    requires { (a < nodes_of script.now) × (b < nodes_of script.now) × (nodes_of script.now ≤ length ends.now) }
    ensures { result ≡ joins
        (asks_by left (node_at script.now a).tag (get_or ends.now a (edges false false)) false) (get_or ends.now a (edges false false))
        (asks_by right (node_at script.now b).tag (get_or ends.now b (edges false false)) false) (get_or ends.now b (edges false false)) }
{
    let first = ends[a];
    let second = ends[b];
    let p = left.asks(script.image.tag_of(a), first, false);
    let q = right.asks(script.image.tag_of(b), second, false);
    Edges {
        bare: !q && second.bare,
        signed: !p && first.signed,
    }
}

/// How node n ends and begins, from those below it.
#[tactic(auto, using(crate::proofs::Cited::ends_node_end_lemmas))]
pub fn node_end(script: &Script<'_>, ends: &[Edges], n: usize) -> Edges
    requires n_bound { n < nodes_of script.now }
    requires ends_to { EndsTo script.now n ends.now }
    ensures { result ≡ ends_of (tree_at (node_at script.now) n) }
{
    let x = script.image.read(n);
    // on the number, as the table of tags has it
    match x.tag {
        // integer: from 2^31 on it is written with a sign
        2 => Edges {
            bare: false,
            signed: 32768 <= x.b,
        },
        // difference
        3 => join(script, ends, How::Left, How::Right, x.a, x.b),
        // selection
        6 => join(script, ends, How::LeftOfDot, How::RightOfDot, x.a, x.b),
        // proc
        7 => Edges {
            bare: true,
            signed: false,
        },
        _ => PLAIN,
    }
}
