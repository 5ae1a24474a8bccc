//! Attribute codes of a script, for any bytes: what lies past the end reads as 0, as in the definitions, so that printing
//! asks nothing of the script.
ghost use Rattle.std.specs.Prelude.{◌≡◌, ◌<◌, get_or};
ghost use Rattle.rules.specs.Image.{code_at};
ghost use Rattle.listed.specs.Listing.{code_of};

fn byte_at(img: &[u8], i: usize) -> u64
    ensures { (result ≡ get_or img.now i 0) × (result < 256) }
{
    u64::from(img.get(i).copied().unwrap_or(0))
}

/// The code at a position from 0.
pub fn code_at(img: &[u8], i: u32) -> u64
    ensures { result ≡ code_at img.now i }
{
    let p = 10 + 2 * i as usize;
    byte_at(img, p) + byte_at(img, p + 1) * 256
}

/// The code of a field index, which counts from 1; index 0 is no field.
pub fn code_of(img: &[u8], f: u32) -> u64
    ensures { result ≡ code_of img.now f }
{
    if f == 0 {
        return 0;
    }
    code_at(img, f - 1)
}
