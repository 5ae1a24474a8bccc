//! The reader of written scripts for programs in C and Rust, as lib.rt has the interpreter: a wrapper with its answer as numbers.
ghost use Rattle.std.specs.Prelude.{◌≡◌};
ghost use Rattle.told.specs.Written.{TellsReading, words_asked};

use told::Written;

/// The words that the reader is lent for a text of so many bytes; the largest number where they are more than that.
#[unsafe(no_mangle)]
pub extern "C" fn flagcopper_read_words(text_bytes: usize) -> usize
    ensures { result ≡ words_asked text_bytes }
{
    if text_bytes <= (usize::MAX - 4) / 3 {
        return 3 * text_bytes + 4;
    }
    usize::MAX
}

/// A written script: its image in `out`, or the first mistake.
#[unsafe(no_mangle)]
pub extern "C" fn flagcopper_read(
    text: &[u8],
    list: &[u8],
    work: &mut [u32],
    out: &mut [u8],
) -> Written
    ensures { TellsReading list.now text.now result work.old out.old work.new out.new }
{
    Written::from(reader::read(text, list, work, out))
}
