// Text in lent bytes: a run of bytes as it is, and a number's decimal digits. Every call is total: what would lie past the end is left out.
#![tactic(auto)]

ghost use Rattle.std.specs.Prelude.{◌≡◌, [], ◌∷◌, ◌+◌, ◌<◌, length};
ghost use Rattle.fields.specs.Put.{put};
ghost use Rattle.decimal.specs.Text.{digit, decimal};

// Stores the text from `at` on, and answers its length.
pub fn put_text(out: &mut [u8], at: usize, text: &[u8]) -> usize
    ensures size { result ≡ length text.now }
    ensures stored { out.new ≡ put at text.now out.old }
{
    if at < out.len() {
        let n = text.len().min(out.len() - at);
        out[at..at + n].copy_from_slice(&text[..n]);
    }
    text.len()
}

// How many decimal digits n has.
fn decimal_len(n: u64) -> usize
    ensures { result ≡ length (decimal n) }
{
    n.max(1).ilog10() as usize + 1
}

// The digit d, i places behind `at`.
fn put_digit(out: &mut [u8], at: usize, i: usize, d: u64)
    requires { d < 10 }
    ensures { out.new ≡ put (at + i) (digit d ∷ []) out.old }
{
    if at < out.len() && i < out.len() - at {
        out[at + i] = b'0' + (d as u8);
    }
}

// Stores the decimal digits of n from `at` on, the last of them first, and answers how many there are.
pub fn put_decimal(out: &mut [u8], at: usize, n: u64) -> usize
    ensures size { result ≡ length (decimal n) }
    ensures stored { out.new ≡ put at (decimal n) out.old }
{
    let count = decimal_len(n);
    let mut rest = n;
    for i in (0..count).rev() {
        put_digit(out, at, i, rest % 10);
        rest /= 10;
    }
    count
}
