//! The second line of a refused text: what stood there and what could have stood there.
ghost use Rattle.std.specs.Prelude.{◌≡◌, ◌<◌, ◌≤◌, length};
ghost use Rattle.text.specs.Written.{HasRoom, Adds};
ghost use Rattle.wording.specs.Lines.{shown, stood, place_line, second_line};

use crate::could::put_could;
use crate::lines::nodes_line;
use crate::words::fault_words;
use text::Page;

const MOST_SHOWN: usize = 64;

// A place as it stands in the text, or its first bytes.
fn put_shown(page: &mut Page, place: &[u8])
    requires { HasRoom 66 page.old }
    ensures { Adds 66 page.old (shown place.now) page.new }
{
    if place.len() <= MOST_SHOWN {
        page.put_text(place);
    } else {
        page.put_text(&place[..MOST_SHOWN]);
        page.put_text(b"..");
    }
}

// By the number of the refusal and the kind of what stood there; 0 is the end of the text.
fn put_stood(page: &mut Page, number: usize, kind: u32, place: &[u8])
    requires room { HasRoom 92 page.old }
    requires le_number { (22 ≤ number) × (number < 27) }
    requires place_nonzero { (kind ≡ 0 → ⊥) → 0 < length place.now }
    ensures { Adds 92 page.old (stood number kind place.now) page.new }
{
    if kind == 0 {
        page.put_text(b"early end");
    } else if number == 22 {
        page.put_text(b"bad byte ");
        page.put_decimal(u64::from(place[0]));
    } else {
        page.put_text(fault_words(number));
        page.put_text(b": ");
        put_shown(page, place);
    }
}

fn place_line(page: &mut Page, number: usize, kind: u32, place: &[u8], could: &[bool; 29])
    requires room { HasRoom 385 page.old }
    requires le_number { (22 ≤ number) × (number < 27) }
    requires place_nonzero { (kind ≡ 0 → ⊥) → 0 < length place.now }
    ensures { Adds 385 page.old (place_line number kind place.now could.now) page.new }
{
    put_stood(page, number, kind, place);
    page.put_text(b"; could be: ");
    put_could(page, could);
    page.put_text(b"\n");
}

/// What stood at the place that a text is refused for, by the number of the refusal and the kind of what stood there, and which kinds could have stood there.
pub fn second_line(page: &mut Page, number: usize, kind: u32, place: &[u8], could: &[bool; 29])
    requires room { HasRoom 385 page.old }
    requires le_number { (22 ≤ number) × (number ≤ 27) }
    requires place_nonzero { (kind ≡ 0 → ⊥) → 0 < length place.now }
    ensures { Adds 385 page.old (second_line number kind place.now could.now) page.new }
{
    if number == 27 {
        nodes_line(page);
    } else {
        place_line(page, number, kind, place, could);
    }
}
