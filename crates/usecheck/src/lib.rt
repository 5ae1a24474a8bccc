//! Rule 8 (document 01, "Refused scripts"): every node but the root is a child exactly once, and the root is a command.
//! The uses of every node are counted in one pass, in a local array with a number for each node.

#![tactic(auto)]

ghost use Rattle.std.specs.Prelude.{◌≡◌, ◌+◌, ◌<◌, ◌≤◌, not};
ghost use Rattle.rules.specs.Image.{nodes_of};
ghost use Rattle.rules.specs.Refusals.{bad_use};
ghost use Rattle.image.specs.Refusals.{verdict_of};
ghost use Rattle.checklaws.specs.Pieces.{use_rules, rules_say};
ghost use Rattle.checklaws.specs.Counts.{Most, Ticks, TicksAll, Counts};

use image::{Image, Refusal};
use rules::{Kind, Node, Role, Row};

// Counts one word of a node: a child is used once more. A count may grow by one where all are at most 65,534, one less than the
// largest number of 16 bits.
#[tactic(auto, using(checklaws::proofs::Counting::ticking), unfolding(rules::specs::Refusals::hit))]
fn tick(uses: &mut [u16], role: Role, word: usize)
    requires { Most 65534 uses.old }
    ensures { Ticks role word uses.old uses.new }
{
    if matches!(role, Role::Child(_)) && word < uses.len() {
        uses[word] += 1;
    }
}

// A node's three words may be the same child, so its count may grow by three; 60,000 leaves room for that, and is more
// than 2,048 nodes with three children each.
fn tick_words(uses: &mut [u16], node: Node, row: Row)
    requires { Most 60000 uses.old }
    ensures { TicksAll row node uses.old uses.new }
{
    tick(uses, row.a, node.a);
    tick(uses, row.b, node.b);
    tick(uses, row.c, node.c);
}

#[tactic(auto, using(namecheck::proofs::Shapes::shapes, checklaws::proofs::Counting::counting))]
fn count_node(image: &Image, uses: &mut [u16], n: usize)
    requires n_bound { n < nodes_of image.now }
    requires small { n < 2048 }
    requires counts { Counts image.now n uses.old }
    ensures { Counts image.now (n + 1) uses.new }
{
    let node = image.read(n);
    if let Some(row) = image::operands(node.tag) {
        tick_words(uses, node, row);
    }
}

#[tactic(auto, using(checklaws::proofs::Counting::counting))]
fn count(image: &Image, uses: &mut [u16])
    requires { Counts image.now 0 uses.old }
    ensures { Counts image.now (nodes_of image.now) uses.new }
{
    for n in 0..image.nodes() {
        count_node(image, uses, n);
    }
}

// Is node n a child exactly once, or as the root a command?
#[tactic(auto, using(checklaws::proofs::Words::once), unfolding(rules::specs::Refusals::is_kind, rules::specs::Refusals::same_kind))]
fn is_well_used(image: &Image, uses: &[u16], n: usize) -> bool
    requires n_bound { n < nodes_of image.now }
    requires counts { Counts image.now (nodes_of image.now) uses.now }
    ensures { result ≡ not (bad_use image.now n) }
{
    if n + 1 == image.nodes() {
        matches!(image::kind(image.tag_of(n)), Some(Kind::Cmd))
    } else {
        uses[n] == 1
    }
}

#[tactic(auto, using(checklaws::proofs::Places::placing, checklaws::proofs::Words::uses))]
fn lowest_use(image: &Image, uses: &[u16]) -> Result<(), Refusal>
    requires { Counts image.now (nodes_of image.now) uses.now }
    ensures { verdict_of result ≡ rules_say image.now use_rules (nodes_of image.now) }
{
    for n in 0..image.nodes() {
        if !is_well_used(image, uses, n) {
            return Err(Refusal::Uses(n as u32));
        }
    }
    Ok(())
}

// With room for N nodes.
#[tactic(auto, using(checklaws::proofs::Counting::counting))]
fn with_room<const N: usize>(image: &Image) -> Result<(), Refusal>
    requires roomy { nodes_of image.now ≤ N }
    requires few { N ≤ 2048 }
    ensures { verdict_of result ≡ rules_say image.now use_rules (nodes_of image.now) }
{
    let mut uses = [0; N];
    count(image, &mut uses);
    lowest_use(image, &uses)
}

/// Is every node but the root a child exactly once, and the root a command?
// A short script has a short list: clearing the long one would take longer than all the rest of its check.
pub fn all_uses(image: &Image) -> Result<(), Refusal>
    ensures { verdict_of result ≡ rules_say image.now use_rules (nodes_of image.now) }
{
    if image.nodes() <= 256 {
        with_room::<256>(image)
    } else {
        with_room::<2048>(image)
    }
}
