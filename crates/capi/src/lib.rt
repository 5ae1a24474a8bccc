//! The interpreter for programs in C and Rust: the public functions behind a C interface, with their answers as numbers
//! (include/flagcopper.h); in written.rt the reader of written scripts. Wrappers only. Nothing is asked of the caller but that a
//! pointer and its length are memory of the caller's; each answer, and every word of what is lent, is the definitions'.
#![tactic(auto)]

mod images;
mod written;

ghost use Rattle.std.specs.Prelude.{◌≡◌, length, []};
ghost use Rattle.rules.specs.Refusals.{check as check_of};
ghost use Rattle.rules.specs.State.{size as size_of};
ghost use Rattle.rules.specs.Run.{answer_of};
ghost use Rattle.words.specs.Lent.{words_after, rows_after};
ghost use Rattle.told.specs.Told.{checked_of, told_of, TellsFair};

use rules::SIZE;
use told::{Checked, Fair, Told};

/// The words that a run needs.
#[unsafe(no_mangle)]
pub extern "C" fn flagcopper_size() -> usize
    ensures { result ≡ size_of }
{
    SIZE
}

/// Accepted, or refused with the first reason in the fixed order and its place; `workspace_words` is what a run will be lent.
#[unsafe(no_mangle)]
pub extern "C" fn flagcopper_check(script: &[u8], workspace_words: usize) -> Checked
    ensures { result ≡ checked_of (check_of [] workspace_words script.now) }
{
    Checked::from(interpreter::check(script, workspace_words))
}

/// Check and run.
#[unsafe(no_mangle)]
pub extern "C" fn flagcopper_run(script: &[u8], choices: &[u8], workspace: &mut [u64]) -> Told
    ensures value { result ≡ told_of (answer_of (length workspace.old) script.now choices.now) }
    ensures workspace_after { workspace.new ≡ words_after script.now choices.now workspace.old }
{
    Told::from(interpreter::run(script, choices, workspace))
}

/// Check and run, with a row of five numbers for each step taken, as many as fit whole.
#[unsafe(no_mangle)]
pub extern "C" fn flagcopper_trace(
    script: &[u8],
    choices: &[u8],
    workspace: &mut [u64],
    rows: &mut [u32],
) -> Told
    ensures value { result ≡ told_of (answer_of (length workspace.old) script.now choices.now) }
    ensures workspace_after { workspace.new ≡ words_after script.now choices.now workspace.old }
    ensures rows_after { rows.new ≡ rows_after (length workspace.old) script.now choices.now rows.old }
{
    Told::from(interpreter::trace(script, choices, workspace, rows))
}

/// Check, and run with turns taken fairly: the choices picked go to `picks`.
#[unsafe(no_mangle)]
pub extern "C" fn flagcopper_fair(script: &[u8], picks: &mut [u8], workspace: &mut [u64]) -> Fair
    ensures { TellsFair script.now result picks.old picks.new workspace.old workspace.new }
{
    Fair::from(interpreter::fair(script, picks, workspace))
}
