// What a record tells of the bytes that its call was lent, four to a word behind the number and the answer's first word.
ghost use Rattle.std.specs.Prelude.{◌≡◌, true, ℕ, ◌+◌, ◌*◌, ◌≤◌, length, get_or, replicate};
ghost use Rattle.fields.specs.Bytes.{le_at};

use crate::word_or;
use fields::u32_le;

// What N lent bytes hold before the call.
pub fn untouched<const N: usize>() -> [u8; N]
    ensures { result ≡ replicate N 0xD1 }
{
    [0xD1; N]
}

// Whether a call gave the number and the first word told, and left the bytes told, as far as whole words go. A byte there that no word tells is as it was.
pub fn lent_agrees(output: &[u32], number: u32, first: u64, bytes: &[u8]) -> bool
    ensures number { result ≡ true → number ≡ get_or output.now 0 0 }
    ensures first { result ≡ true → first ≡ get_or output.now 1 0 }
    ensures bytes { result ≡ true → ((k : ℕ) → 4 * k + 4 ≤ length bytes.now → le_at 4 bytes.now (4 * k) ≡ get_or output.now (k + 2) 0xD1D1_D1D1) }
{
    number == word_or(output, 0, 0)
        && first == u64::from(word_or(output, 1, 0))
        && bytes_agree(bytes, output)
}

fn bytes_agree(bytes: &[u8], output: &[u32]) -> bool
    ensures { result ≡ true → ((k : ℕ) → 4 * k + 4 ≤ length bytes.now → le_at 4 bytes.now (4 * k) ≡ get_or output.now (k + 2) 0xD1D1_D1D1) }
{
    for k in 0..bytes.len() / 4 {
        if u32_le(bytes, 4 * k) != word_or(output, k + 2, 0xD1D1_D1D1) {
            return false;
        }
    }
    true
}
