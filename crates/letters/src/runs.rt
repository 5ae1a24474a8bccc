// Where a word or a number ends: at the first byte that doesn't go on with it, or at the text's end.
ghost use Rattle.std.specs.Prelude.{◌≡◌, ◌+◌, ◌≤◌, ◌<◌, length, drop};
ghost use Rattle.grammar.specs.Classes.{in_word, is_digit};
ghost use Rattle.letters.specs.Runs.{run};

use crate::classes::class_of;

// classes 2 to 4 are those of letters and digits
const UPPER: u8 = 2;

const DIGIT: u8 = 4;

/// Where the letters and digits end that stand from byte `at` on.
pub fn word_end(text: &[u8], at: usize) -> usize
    requires { at ≤ length text.now }
    ensures { (result ≡ at + run in_word (drop at text.now)) × (result ≤ length text.now) }
{
    for i in at..text.len() {
        let class = class_of(text[i]);
        if class < UPPER || DIGIT < class {
            return i;
        }
    }
    text.len()
}

/// Where the digits end that stand from byte `at` on.
#[tactic(auto, using(crate::proofs::Cited::runs_number_end_lemmas))]
pub fn number_end(text: &[u8], at: usize) -> usize
    requires { at ≤ length text.now }
    ensures { (result ≡ at + run is_digit (drop at text.now)) × (result ≤ length text.now) }
{
    for i in at..text.len() {
        if class_of(text[i]) != DIGIT {
            return i;
        }
    }
    text.len()
}
