//! Images as text for programs in C and Rust, as written.rt has the reader: a wrapper with its answer as numbers.
ghost use Rattle.told.specs.Images.{TellsText};

use told::Spelt;

/// An image as text, in `out`, or why it can't be written.
#[unsafe(no_mangle)]
pub extern "C" fn flagcopper_write(image: &[u8], list: &[u8], out: &mut [u8]) -> Spelt
    ensures { TellsText image.now list.now result out.old out.new }
{
    Spelt::from(writer::write(image, list, out))
}
