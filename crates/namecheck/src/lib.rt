//! Rule 9 (document 01, "Refused scripts"): a name used where it isn't declared. A loop from the last node down: when a
//! node is reached, its visible names are known, and it hands them to its children, with the name that it declares.
//! The root's are given. The lowest node that strays is the last one found.
//!
//! Names are 0 to 127, so a set of them is a `u128`: bit x is name x.

#![tactic(auto)]

ghost use Rattle.std.specs.Prelude.{◌≡◌, cond, ◌∷◌, ◌+◌, ◌<◌, ◌≤◌, length};
ghost use Rattle.rules.specs.declared.Verdict.TheVariants.{Refused};
ghost use Rattle.rules.specs.Image.{nodes_of};
ghost use Rattle.rules.specs.Scope.{Names, has};
ghost use Rattle.image.specs.Refusals.{verdict_of};
ghost use Rattle.checklaws.specs.Pieces.{names_say};
ghost use Rattle.checklaws.specs.Hands.{Formed, stray_at};
ghost use Rattle.rules.proofs.StrayRows.{stray_word, grow_word};
ghost use Rattle.checklaws.specs.Bits.{Shows, NameFits, given, given_all, Shown, Visited};
ghost use Rattle.namecheck.specs.Places.{HasPlace};

use image::{Image, Refusal};
use rules::{Node, Role, Row};

// Is name x among these? The half with its bit is looked at alone: a shift of one word of the machine is one instruction, of a number
// of two words some ten.
#[tactic(auto, using(checklaws::proofs::BitLaws::bits))]
fn has(names: u128, x: usize) -> bool
    requires { x < 128 }
    ensures { (visible : Names) → Shows names visible → result ≡ has x visible }
{
    if x < 64 {
        let low = (names % (1 << 64)) as u64;
        (low >> x) & 1 == 1
    } else {
        let high = (names >> 64) as u64;
        (high >> (x - 64)) & 1 == 1
    }
}

// These names and name x, its bit shifted within its half, as in `has`.
#[tactic(auto, using(checklaws::proofs::BitLaws::bits))]
fn with(names: u128, x: usize) -> u128
    requires { x < 128 }
    ensures { (visible : Names) → Shows names visible → Shows result (x ∷ visible) }
{
    if x < 64 {
        names | u128::from(1u64 << x)
    } else {
        names | (u128::from(1u64 << (x - 64)) << 64)
    }
}

// Does this word use a name that isn't visible?
#[tactic(auto, unfolding(rules::proofs::StrayRows::stray_word))]
fn strays(role: Role, word: usize, names: u128) -> bool
    requires { NameFits role word }
    ensures { (visible : Names) → Shows names visible → result ≡ stray_word visible role word }
{
    matches!(role, Role::Uses) && !has(names, word)
}

// The visible names, with the one that this word declares.
#[tactic(auto, unfolding(rules::proofs::StrayRows::grow_word))]
fn grown(role: Role, word: usize, names: u128) -> u128
    requires { NameFits role word }
    ensures { (visible : Names) → Shows names visible → Shows result (grow_word visible role word) }
{
    match role {
        Role::Binds => with(names, word),
        _ => names,
    }
}

// A word that is a child: it is given these names. It is known to have a place, so that isn't asked at each word.
#[tactic(auto, using(checklaws::proofs::Handing::giving, crate::proofs::Places::places))]
fn give(held: &mut [u128], role: Role, word: usize, names: u128)
    requires { HasPlace role word (length held.old) }
    ensures { held.new ≡ given role word names held.old }
{
    if matches!(role, Role::Child(_)) {
        held[word] = names;
    }
}

#[tactic(auto, using(crate::proofs::Places::places))]
fn visit_row(held: &mut [u128], n: usize, node: Node, row: Row) -> bool
    requires n_in_bounds { n < length held.old }
    requires name_fits { NameFits row.a node.a }
    requires a_place { HasPlace row.a node.a (length held.old) }
    requires b_place { HasPlace row.b node.b (length held.old) }
    requires c_place { HasPlace row.c node.c (length held.old) }
    ensures { Visited row node n held.old held.new result }
{
    let visible = held[n];
    let strays = strays(row.a, node.a, visible);
    let names = grown(row.a, node.a, visible);
    give(held, row.a, node.a, names);
    give(held, row.b, node.b, names);
    give(held, row.c, node.c, names);
    strays
}

// Node n hands its names down; does it stray?
#[tactic(auto, using(crate::proofs::Shapes::shapes, crate::proofs::Places::places))]
fn visit(bytes: &[u8], held: &mut [u128], n: usize) -> bool
    requires formed { Formed bytes.now }
    requires n_bound { n < nodes_of bytes.now }
    requires roomy { nodes_of bytes.now ≤ length held.old }
    ensures { (visible : Names) → Shown visible bytes.now (n + 1) held.old → (result ≡ stray_at visible bytes.now n) × Shown visible bytes.now n held.new }
{
    let node = image::read(bytes, n);
    match image::operands(node.tag) {
        None => false,
        Some(row) => visit_row(held, n, node, row),
    }
}

#[tactic(auto, using(checklaws::proofs::Formed::downward))]
fn from_last(bytes: &[u8], held: &mut [u128]) -> Result<(), Refusal>
    requires formed { Formed bytes.now }
    requires roomy { nodes_of bytes.now ≤ length held.old }
    ensures { (visible : Names) → Shown visible bytes.now (nodes_of bytes.now) held.old → verdict_of result ≡ names_say visible bytes.now (nodes_of bytes.now) }
{
    let mut lowest = Ok(());
    for n in (0..image::nodes(bytes)).rev() {
        if visit(bytes, held, n) {
            lowest = Err(Refusal::Name(n as u32));
        }
    }
    lowest
}

// With room for N nodes: the root, which is the last node, is given the names visible there, and no other node any.
fn with_room<const N: usize>(bytes: &[u8], visible: u128) -> Result<(), Refusal>
    requires formed { Formed bytes.now }
    requires roomy { nodes_of bytes.now ≤ N }
    requires few { N ≤ 2048 }
    ensures { (names : Names) → Shows visible names → verdict_of result ≡ names_say names bytes.now (nodes_of bytes.now) }
{
    let mut held = [0; N];
    held[image::nodes(bytes) - 1] = visible;
    from_last(bytes, &mut held)
}

/// Is each name declared where it is used? `visible` are the names visible at the root: bit x is name x.
// A short script has a short list: clearing the long one would take longer than all the rest of its check.
pub fn all_names(image: &Image, visible: u128) -> Result<(), Refusal>
    requires { Formed image.now }
    ensures { (names : Names) → Shows visible names → verdict_of result ≡ names_say names image.now (nodes_of image.now) }
{
    // The loop is given the bytes: behind `image`, their pointer would be loaded anew at each node, since `held` is written.
    let bytes = image.bytes;
    if image::nodes(bytes) <= 256 {
        with_room::<256>(bytes, visible)
    } else {
        with_room::<2048>(bytes, visible)
    }
}
