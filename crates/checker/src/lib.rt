//! The check of a script image (document 01, "Refused scripts"): the first broken rule in the fixed order, and its place.
//! Each group of rules has its own function. Linear in the number of nodes.

#![tactic(auto)]

ghost use Rattle.std.specs.Prelude.{◌≡◌, ◌<◌, ◌≤◌, length, IfOk};
ghost use Rattle.rules.specs.Image.{fields_of};
ghost use Rattle.rules.specs.Refusals.{bad_contents, check};
ghost use Rattle.rules.specs.Scope.{Names};
ghost use Rattle.image.specs.Refusals.{verdict_of};
ghost use Rattle.checklaws.specs.Bits.{Shows};
ghost use Rattle.checklaws.specs.Pieces.{refusal, head_reason, code_rules, place_says, rules_say};

use image::{Image, Refusal, Script};
use rules::{MOST_FIELDS, MOST_NAMES, MOST_NODES, SIZE};

// ---- 10, 1, 2 and 3

// 2: is a start or a count in the contents wrong?
#[tactic(auto, using(checklaws::proofs::Head::contents))]
fn contents_wrong(bytes: &[u8]) -> bool
    requires { 10 ≤ length bytes.now }
    ensures { result ≡ bad_contents bytes.now }
{
    let field_start = image::word(bytes, 0);
    let fields = image::fields(bytes);
    let node_start = image::word(bytes, 4);
    let nodes = image::nodes(bytes);
    if field_start != 10
        || MOST_FIELDS < fields
        || node_start != 10 + 2 * fields
        || nodes == 0
        || MOST_NODES < nodes
    {
        return true;
    }
    MOST_NAMES < image::names(bytes)
}

#[tactic(auto, using(checklaws::proofs::Head::heads))]
fn head<'a>(bytes: &'a [u8], workspace_words: usize) -> Result<Image<'a>, Refusal>
    ensures says { verdict_of result ≡ refusal (head_reason workspace_words bytes.now) 0 }
    ensures same { IfOk result (λ image. image ≡ bytes.now) }
{
    if workspace_words < SIZE {
        return Err(Refusal::Workspace);
    }
    if bytes.len() < 10 {
        return Err(Refusal::Short);
    }
    if contents_wrong(bytes) {
        return Err(Refusal::Contents);
    }
    if bytes.len() != 10 + 2 * image::fields(bytes) + 8 * image::nodes(bytes) {
        return Err(Refusal::Length);
    }
    Ok(Image::new(bytes))
}

// ---- 4

// Is the code at a position zero, or not above the one before?
#[tactic(auto, using(checklaws::proofs::Words::coding))]
fn check_code(image: &Image, i: usize) -> Result<(), Refusal>
    requires i_bound { i < fields_of image.now }
    requires small { i < 16 }
    ensures { verdict_of result ≡ place_says image.now code_rules i }
{
    let code = image.code(i);
    if code == 0 || 0 < i && code <= image.code(i - 1) {
        return Err(Refusal::Code(i as u32));
    }
    Ok(())
}

#[tactic(auto, using(checklaws::proofs::Places::placing))]
fn codes(image: &Image) -> Result<(), Refusal>
    ensures { verdict_of result ≡ rules_say image.now code_rules (fields_of image.now) }
{
    for i in 0..image.fields() {
        check_code(image, i)?;
    }
    Ok(())
}

// ---- the whole check

/// The bytes as a script, or the first broken rule in the fixed order and its place; for any bytes, any length of the workspace and
/// any names visible at the root: bit x of `visible` is name x. A group of rules is looked at when no earlier one is broken.
pub fn check<'a>(
    script: &'a [u8],
    workspace_words: usize,
    visible: u128,
) -> Result<Script<'a>, Refusal>
    ensures says { (names : Names) → Shows visible names → verdict_of result ≡ check names workspace_words script.now }
    ensures same { IfOk result (λ checked. checked ≡ script.now) }
{
    let image = head(script, workspace_words)?;
    codes(&image)?;
    nodecheck::all_nodes(&image)?;
    usecheck::all_uses(&image)?;
    namecheck::all_names(&image, visible)?;
    Ok(Script { image })
}
