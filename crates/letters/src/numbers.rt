// What the digits of a number say, summed with a ceiling of 2^33, so that any number of digits is judged.
ghost use Rattle.std.specs.Prelude.{◌≡◌, ◌+◌, ◌*◌, ◌-◌, ◌≤◌, ◌<◌, min, length};
ghost use Rattle.std.proofs.Math.Seq.{slice};
ghost use Rattle.grammar.specs.Places.{decimal};

const CEILING: u64 = 8589934592;

fn with_digit(n: u64, b: u8) -> u64
    requires { n ≤ 8589934592 }
    ensures { result ≡ min (10 * n + (b - 48)) 8589934592 }
{
    (10 * n + u64::from(b.saturating_sub(b'0'))).min(CEILING)
}

/// What the digits from byte `from` up to `to` say, or 2^33 where that is more.
pub fn number_of(text: &[u8], from: usize, to: usize) -> u64
    requires { (from ≤ to) × (to ≤ length text.now) }
    ensures { (result ≡ min (decimal (slice from to text.now)) 8589934592) × (result ≤ 8589934592) }
{
    let mut n = 0;
    for b in &text[from..to] {
        n = with_digit(n, *b);
    }
    n
}
