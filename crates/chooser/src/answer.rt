//! What is printed for a script's file, and the choice file. A missing file comes first; a script that is there is judged and run, with turns taken
//! fairly, by the interpreter.
ghost use Rattle.std.specs.Prelude.{◌≡◌, length};
ghost use Rattle.std.proofs.Math.Option.{some};
ghost use Rattle.text.specs.Written.{HasRoom};
ghost use Rattle.filing.specs.Given.{given};
ghost use Rattle.chooser.specs.Makes.{most_picks};
ghost use Rattle.chooser.specs.Says.{most_printed, TellSays, AnswerSays};

use report::ends::end_line;
use report::lines::{no_input, refused_line};
use rules::{Answer, SIZE};
use text::Page;

// Of the answer of a fair run, and how many choices it picked.
fn tell(page: &mut Page, answer: Answer, picked: usize) -> Option<usize>
    requires { HasRoom most_printed page.old }
    ensures { TellSays answer picked result page.old page.new }
{
    match answer {
        Answer::Refusal(number, place) => {
            refused_line(page, number, place);
            None
        }
        Answer::Ending(end, steps) => {
            end_line(page, end, steps);
            Some(picked)
        }
    }
}

// A script that is there, with a workspace of the right size.
fn choosing(page: &mut Page, script: &[u8], picks: &mut [u8]) -> Option<usize>
    requires room { HasRoom most_printed page.old }
    requires most_picks_value { most_picks ≡ length picks.old }
    ensures { AnswerSays (some script.now) result picks.old page.old picks.new page.new }
{
    let mut workspace = [0; SIZE];
    let turned = interpreter::fair(script, picks, &mut workspace);
    tell(page, turned.answer, turned.picked)
}

/// What is printed for the script's file, and how many choices, which stand in the first bytes of `picks`, the choice file has, if one is made; a file of
/// none is one too.
pub fn answer(page: &mut Page, script: Option<&[u8]>, picks: &mut [u8]) -> Option<usize>
    requires room { HasRoom most_printed page.old }
    requires most_picks_value { most_picks ≡ length picks.old }
    ensures { AnswerSays (given script.entry) result picks.old page.old picks.new page.new }
{
    let Some(script) = script else {
        no_input(page);
        return None;
    };
    choosing(page, script, picks)
}
