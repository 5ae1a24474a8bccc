//! Rules 6 and 7 (document 01, "Refused scripts") at one node: do its words fit? A word that the tag's row doesn't list is zero, another
//! fits its role. Each row has an arm: a word's role is then known where the word is looked at, and a node's check asks for nothing but
//! its words.

ghost use Rattle.std.specs.Prelude.{◌≡◌, ◌&&◌, ◌<◌, leb};
ghost use Rattle.std.proofs.Math.Option.{some};
ghost use Rattle.rules.specs.declared.Role.TheVariants.{Child as a_child};
ghost use Rattle.rules.specs.Image.{nodes_of, kind_of, row_of};
ghost use Rattle.rules.specs.Refusals.{is_kind, suits};
ghost use Rattle.checklaws.specs.Pieces.{index_right, name_right};
ghost use Rattle.nodecheck.specs.Rows.{row_fits};

use image::Image;
use rules::Kind::{Cmd, Exp, Test};
use rules::{Kind, Node};

// Has a number the kind as a tag? The range of the one kind is asked for, and not which kind it has.
#[tactic(auto, using(crate::proofs::Fitting::kinds))]
fn of_kind(kind: Kind, tag: usize) -> bool
    ensures { result ≡ is_kind kind (kind_of tag) }
{
    match kind {
        Exp => matches!(tag, 1..=7),
        Test => matches!(tag, 16..=19),
        Cmd => matches!(tag, 32..=42),
    }
}

// A child is below its parent and of its kind.
#[tactic(auto, unfolding(rules::specs::Refusals::suits))]
fn child(image: &Image, n: usize, kind: Kind, word: usize) -> bool
    requires { n < nodes_of image.now }
    ensures { result ≡ suits image.now n (a_child kind) word }
{
    word < n && of_kind(kind, image.tag_of(word))
}

// A field index is in 1..F.
fn index(image: &Image, word: usize) -> bool
    ensures { result ≡ index_right image.now word }
{
    1 <= word && word <= image.fields()
}

// A name is in 0..N−1.
fn name(image: &Image, word: usize) -> bool
    ensures { result ≡ name_right image.now word }
{
    word < image.names()
}

// A number that is no tag has no row, and its words fit none.
#[tactic(auto, using(crate::proofs::Fitting::no_row), unfolding(rules::specs::Image::row_of, rules::specs::Image::row_in, rules::specs::Image::line_of, rules::specs::Image::line_in, rules::specs::Image::tags))]
pub fn fits(image: &Image, n: usize, node: Node) -> bool
    requires { n < nodes_of image.now }
    ensures { result ≡ row_fits image.now n (row_of node.tag) node }
{
    let Node { tag, a, b, c } = node;
    match tag {
        // field
        1 => index(image, a) & (b == 0) & (c == 0),
        // integer
        2 => c == 0,
        // null, true, false, skip
        4 | 16 | 17 | 37 => (a == 0) & (b == 0) & (c == 0),
        // variable, malloc
        5 | 34 => name(image, a) & (b == 0) & (c == 0),
        // difference, selection, equal, less, call
        3 | 6 | 18 | 19 | 33 => child(image, n, Exp, a) & child(image, n, Exp, b) & (c == 0),
        // proc, var
        7 | 32 => name(image, a) & child(image, n, Cmd, b) & (c == 0),
        // assign
        35 => name(image, a) & child(image, n, Exp, b) & (c == 0),
        // field assign
        36 => child(image, n, Exp, a) & child(image, n, Exp, b) & child(image, n, Exp, c),
        // sequence, parallel
        38 | 41 => child(image, n, Cmd, a) & child(image, n, Cmd, b) & (c == 0),
        // while
        39 => child(image, n, Test, a) & child(image, n, Cmd, b) & (c == 0),
        // if
        40 => child(image, n, Test, a) & child(image, n, Cmd, b) & child(image, n, Cmd, c),
        // atom
        42 => child(image, n, Cmd, a) & (b == 0) & (c == 0),
        _ => false,
    }
}
