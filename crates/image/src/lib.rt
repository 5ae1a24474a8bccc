//! The script image: its words and nodes, the kind of a tag and the roles of a node's words
//! (document 01, "The script image"). A node is read once, into a struct by value.
//!
//! A script is bytes; words are 16 bits, low byte first. `Image` is bytes whose contents and length are right, so that each word that
//! the contents speak of is there; `Script` is an image that no rule refuses.

#![tactic(auto)]

mod refusals;

ghost use Rattle.std.specs.Prelude.{◌≡◌, ◌+◌, ◌*◌, ◌<◌, ◌≤◌, length};
ghost use Rattle.std.proofs.Math.Option.{some};
ghost use Rattle.laws.specs.Options.{math_option};
ghost use Rattle.rules.specs.Image.{word_at, fields_of, nodes_of, names_of, code_at, part_of, node_at, kind_of, row, row_of};
ghost use Rattle.rules.proofs.GoodFacts.{Sized, Good};
ghost use Rattle.image.specs.Read.{NodeRead};

pub use refusals::Refusal;
use rules::Kind::{Cmd, Exp, Test};
use rules::Role::{Binds, Child, Half, Index, Unused, Uses};
use rules::{Kind, Node, Role, Row};
use std::marker::Model;

/// Bytes whose contents are right and whose length is what they say. A contract sees the bytes.
#[derive(Drop)]
pub struct Image<'a> {
    pub bytes: &'a [u8],
}

impl<'a> Model for Image<'a> {
    ghost use Rattle.std.specs.Prelude.{ℕ, List};
    ghost use Rattle.rules.proofs.GoodFacts.{Sized};

    ghost Value = { List ℕ };

    ghost view = { λ i. i.bytes.now };

    ghost invariant = { λ i. Sized i.bytes.now };
}

/// An image that no rule of the check refuses. A contract sees the bytes.
#[derive(Drop)]
pub struct Script<'a> {
    pub image: Image<'a>,
}

impl<'a> Model for Script<'a> {
    ghost use Rattle.std.specs.Prelude.{ℕ, List};
    ghost use Rattle.rules.proofs.GoodFacts.{Good};

    ghost Value = { List ℕ };

    ghost view = { λ s. s.image };

    ghost invariant = { λ s. Good s.image };
}

impl<'a> Image<'a> {
    /// The image that these bytes are.
    pub fn new(bytes: &'a [u8]) -> Image<'a>
        requires { Sized bytes.now }
        ensures { result ≡ bytes.now }
    {
        Image { bytes }
    }

    /// F, the number of fields.
    pub fn fields(&self) -> usize
        ensures { (result ≡ fields_of self.now) × (result ≤ 16) }
    {
        fields(self.bytes)
    }

    /// M, the number of nodes.
    pub fn nodes(&self) -> usize
        ensures { (result ≡ nodes_of self.now) × ((1 ≤ result) × (result ≤ 2048)) }
    {
        nodes(self.bytes)
    }

    /// N, the number of names.
    pub fn names(&self) -> usize
        ensures { (result ≡ names_of self.now) × (result ≤ 128) }
    {
        names(self.bytes)
    }

    /// The attribute code at a position from 0.
    pub fn code(&self, i: usize) -> usize
        requires { i < fields_of self.now }
        ensures { (result ≡ code_at self.now i) × (result < 65536) }
    {
        code(self.bytes, i)
    }

    /// The four words of node `n`.
    pub fn read(&self, n: usize) -> Node
        requires { n < nodes_of self.now }
        ensures { NodeRead self.now n result }
    {
        read(self.bytes, n)
    }

    /// The tag of node `n` alone.
    pub fn tag_of(&self, n: usize) -> usize
        requires { n < nodes_of self.now }
        ensures { result ≡ (node_at self.now n).tag }
    {
        tag_of(self.bytes, n)
    }
}

impl<'a> Script<'a> {
    /// The script that these bytes are.
    pub fn new(bytes: &'a [u8]) -> Script<'a>
        requires { Good bytes.now }
        ensures { result ≡ bytes.now }
    {
        Script {
            image: Image::new(bytes),
        }
    }

    /// F, the number of fields.
    pub fn fields(&self) -> usize
        ensures fields { (result ≡ fields_of self.now) × (result ≤ 16) }
        ensures good { Good self.now }
    {
        self.image.fields()
    }

    /// M, the number of nodes.
    pub fn nodes(&self) -> usize
        ensures nodes { (result ≡ nodes_of self.now) × ((1 ≤ result) × (result ≤ 2048)) }
        ensures good { Good self.now }
    {
        self.image.nodes()
    }

    /// The four words of node `n`.
    pub fn read(&self, n: usize) -> Node
        requires { n < nodes_of self.now }
        ensures read { NodeRead self.now n result }
        ensures good { Good self.now }
    {
        self.image.read(n)
    }

    /// The tag of node `n` alone.
    pub fn tag_of(&self, n: usize) -> usize
        requires { n < nodes_of self.now }
        ensures tag { result ≡ (node_at self.now n).tag }
        ensures good { Good self.now }
    {
        self.image.tag_of(n)
    }
}

/// A byte as a number.
pub fn wide(x: u8) -> usize
    ensures { (result ≡ x) × (result < 256) }
{
    usize::from(x)
}

/// The word at a byte.
pub fn word(img: &[u8], at: usize) -> usize
    requires { at + 1 < length img.now }
    ensures { (result ≡ word_at img.now at) × (result < 65536) }
{
    let lo = usize::from(img[at]);
    let hi = usize::from(img[at + 1]);
    lo + hi * 256
}

/// F, the number of fields.
#[tactic(auto, unfolding(rules::specs::Image::fields_of))]
pub fn fields(img: &[u8]) -> usize
    requires { 10 ≤ length img.now }
    ensures { (result ≡ fields_of img.now) × (result < 65536) }
{
    word(img, 2)
}

/// M, the number of nodes.
#[tactic(auto, unfolding(rules::specs::Image::nodes_of))]
pub fn nodes(img: &[u8]) -> usize
    requires { 10 ≤ length img.now }
    ensures { (result ≡ nodes_of img.now) × (result < 65536) }
{
    word(img, 6)
}

/// N, the number of names.
#[tactic(auto, unfolding(rules::specs::Image::names_of))]
pub fn names(img: &[u8]) -> usize
    requires { 10 ≤ length img.now }
    ensures { (result ≡ names_of img.now) × (result < 65536) }
{
    word(img, 8)
}

/// The attribute code at a position from 0.
#[tactic(auto, unfolding(rules::specs::Image::code_at))]
pub fn code(img: &[u8], i: usize) -> usize
    requires sized { Sized img.now }
    requires i_bound { i < fields_of img.now }
    ensures { (result ≡ code_at img.now i) × (result < 65536) }
{
    word(img, 10 + 2 * i)
}

#[tactic(auto, unfolding(rules::specs::Image::part_of))]
fn part(img: &[u8], start: usize, n: usize, i: usize) -> usize
    requires sized { Sized img.now }
    requires start_value { (start ≡ 10 + 2 * fields_of img.now) × ((n < nodes_of img.now) × (i < 4)) }
    ensures { (result ≡ part_of img.now n i) × (result < 65536) }
{
    word(img, start + 8 * n + 2 * i)
}

#[tactic(auto, unfolding(rules::specs::Image::fields_of))]
fn nodes_at(img: &[u8]) -> usize
    requires { Sized img.now }
    ensures { result ≡ 10 + 2 * fields_of img.now }
{
    10 + 2 * word(img, 2)
}

/// The four words of node `n`.
#[tactic(auto, unfolding(rules::specs::Image::node_at))]
pub fn read(img: &[u8], n: usize) -> Node
    requires sized { Sized img.now }
    requires n_bound { n < nodes_of img.now }
    ensures { NodeRead img.now n result }
{
    let from = nodes_at(img);
    Node {
        tag: part(img, from, n, 0),
        a: part(img, from, n, 1),
        b: part(img, from, n, 2),
        c: part(img, from, n, 3),
    }
}

/// The tag of node `n` alone, for those who read its other words only where the tag says what they are: loaded in every case, they
/// take registers from all of them.
#[tactic(auto, unfolding(rules::specs::Image::node_at))]
pub fn tag_of(img: &[u8], n: usize) -> usize
    requires sized { Sized img.now }
    requires n_bound { n < nodes_of img.now }
    ensures { result ≡ (node_at img.now n).tag }
{
    let from = nodes_at(img);
    part(img, from, n, 0)
}

/// "Tags 1 to 7 are expressions, 16 to 19 tests, 32 to 42 commands; no other number is a tag."
#[tactic(auto, unfolding(rules::specs::Image::kind_of))]
pub fn kind(tag: usize) -> Option<Kind>
    ensures { math_option result ≡ kind_of tag }
{
    match tag {
        1..=7 => Some(Exp),
        16..=19 => Some(Test),
        32..=42 => Some(Cmd),
        _ => None,
    }
}

fn words(a: Role, b: Role, c: Role) -> Option<Row>
    ensures { math_option result ≡ some (row a b c) }
{
    Some(Row { a, b, c })
}

/// The table of tags: what the words a, b and c of a node are. A number that is no tag has no row.
#[tactic(auto, using(crate::proofs::Rows::absent), unfolding(rules::specs::Image::row_of, rules::specs::Image::row_in, rules::specs::Image::line_of, rules::specs::Image::line_in, rules::specs::Image::tags))]
pub fn operands(tag: usize) -> Option<Row>
    ensures { math_option result ≡ row_of tag }
{
    match tag {
        // field
        1 => words(Index, Unused, Unused),
        // integer
        2 => words(Half, Half, Unused),
        // null, true, false, skip
        4 | 16 | 17 | 37 => words(Unused, Unused, Unused),
        // variable, malloc
        5 | 34 => words(Uses, Unused, Unused),
        // difference, selection, equal, less, call
        3 | 6 | 18 | 19 | 33 => words(Child(Exp), Child(Exp), Unused),
        // proc, var
        7 | 32 => words(Binds, Child(Cmd), Unused),
        // assign
        35 => words(Uses, Child(Exp), Unused),
        // field assign
        36 => words(Child(Exp), Child(Exp), Child(Exp)),
        // sequence, parallel
        38 | 41 => words(Child(Cmd), Child(Cmd), Unused),
        // while
        39 => words(Child(Test), Child(Cmd), Unused),
        // if
        40 => words(Child(Test), Child(Cmd), Child(Cmd)),
        // atom
        42 => words(Child(Cmd), Unused, Unused),
        _ => None,
    }
}
