//! What could have stood at a place, as a list of words: the kinds in order, and last the end of the text, of kind 0.
ghost use Rattle.std.specs.Prelude.{◌≡◌, ◌<◌};
ghost use Rattle.text.specs.Written.{HasRoom, Adds};
ghost use Rattle.wording.specs.Lines.{words_of, kinds, tells as tells_kind, could_be};
ghost use Rattle.wording.specs.Words.{item, TellSays};

use crate::words::kind_words;
use text::Page;

// a minus directly before a digit, and any other
const SIGN: usize = 4;

const MINUS: usize = 5;

// Whether a kind is told: a minus is told once.
#[tactic(auto, unfolding(crate::specs::Lines::tells))]
fn tells(could: &[bool; 29], k: usize) -> bool
    requires { k < 28 }
    ensures { result ≡ tells_kind could.now k }
{
    could[k] && !(k == MINUS && could[SIGN])
}

// The word of a kind behind so many others.
fn put_item(page: &mut Page, count: usize, k: usize)
    requires room { HasRoom 10 page.old }
    requires k_in_range { k < 28 }
    ensures { Adds 10 page.old (item count (words_of k kinds)) page.new }
{
    if count == 0 {
        page.put_text(kind_words(k));
    } else {
        page.put_text(b", ");
        page.put_text(kind_words(k));
    }
}

// The word of a kind behind so many others, where it could have stood: how many they are then.
fn tell(page: &mut Page, count: usize, could: &[bool; 29], k: usize) -> usize
    requires room { HasRoom 10 page.old }
    requires k_in_range { (count < 28) × (k < 28) }
    ensures { TellSays could.now k count page.old result page.new }
{
    if !tells(could, k) {
        return count;
    }
    put_item(page, count, k);
    count + 1
}

/// The words of the kinds that could have stood, with commas between them.
pub fn put_could(page: &mut Page, could: &[bool; 29])
    requires { HasRoom 280 page.old }
    ensures { Adds 280 page.old (could_be could.now) page.new }
{
    let mut count = 0;
    for i in 0..28 {
        count = tell(page, count, could, (i + 1) % 28);
    }
}
