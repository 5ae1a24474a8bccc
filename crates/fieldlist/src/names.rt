// Names: where they stand, and which of them is a word.
ghost use Rattle.std.specs.Prelude.{◌≡◌, ◌<◌, length, IfSome};
ghost use Rattle.grammar.specs.FieldList.{position_of};
ghost use Rattle.laws.specs.Options.{math_option};
ghost use Rattle.fieldlist.specs.Names.{Spans, words};

/// Where a name stands: from its first byte up to the one behind its last.
#[derive(Clone, Copy)]
pub struct Span {
    pub from: usize,
    pub to: usize,
}

/// The place, from 0, of the first name in `text` that is this word.
pub fn name_index(text: &[u8], names: &[Span], word: &[u8]) -> Option<usize>
    requires { Spans text.now names.now (length names.now) }
    ensures place { math_option result ≡ position_of word.now (words text.now names.now (length names.now)) }
    ensures within { IfSome result (λ i. i < length names.now) }
{
    for (i, name) in names.iter().enumerate() {
        if word == &text[name.from..name.to] {
            return Some(i);
        }
    }
    None
}
