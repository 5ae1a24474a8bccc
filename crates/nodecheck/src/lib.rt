//! Rules 5, 6 and 7 (document 01, "Refused scripts"), together at each node, node 0 upward: a tag, unused words that are
//! zero, and words that fit their role.

#![tactic(auto)]

mod rows;

ghost use Rattle.std.specs.Prelude.{◌≡◌, ◌&&◌, ◌<◌};
ghost use Rattle.rules.specs.Image.{nodes_of};
ghost use Rattle.rules.specs.Refusals.{blank};
ghost use Rattle.image.specs.Refusals.{verdict_of};
ghost use Rattle.checklaws.specs.Pieces.{node_rules, place_says, rules_say};

use image::{Image, Refusal};
use rules::{Node, Role, Row};

// 6: a word that the tag's row doesn't list is zero.
#[tactic(auto, unfolding(rules::specs::Refusals::blank))]
fn blank_word(role: Role, word: usize) -> bool
    ensures { result ≡ blank role word }
{
    match role {
        Role::Unused => word == 0,
        _ => true,
    }
}

fn blank_words(node: Node, row: Row) -> bool
    ensures { result ≡ (blank row.a node.a && blank row.b node.b && blank row.c node.c) }
{
    blank_word(row.a, node.a) && blank_word(row.b, node.b) && blank_word(row.c, node.c)
}

// Mostly the words fit, so that is asked first; which rule is broken is asked only where one is.
#[tactic(auto, using(namecheck::proofs::Shapes::shapes, crate::proofs::Fitting::reasons))]
fn check_node(image: &Image, n: usize) -> Result<(), Refusal>
    requires n_bound { n < nodes_of image.now }
    requires small { n < 2048 }
    ensures { verdict_of result ≡ place_says image.now node_rules n }
{
    let node = image.read(n);
    if rows::fits(image, n, node) {
        return Ok(());
    }
    match image::operands(node.tag) {
        None => Err(Refusal::Tag(n as u32)),
        Some(row) if blank_words(node, row) => Err(Refusal::Operand(n as u32)),
        Some(_) => Err(Refusal::Unused(n as u32)),
    }
}

/// Has each node a tag, and do its words fit?
#[tactic(auto, using(checklaws::proofs::Places::placing))]
pub fn all_nodes(image: &Image) -> Result<(), Refusal>
    ensures { verdict_of result ≡ rules_say image.now node_rules (nodes_of image.now) }
{
    for n in 0..image.nodes() {
        check_node(image, n)?;
    }
    Ok(())
}
