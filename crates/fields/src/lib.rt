// Little-endian fields of lent bytes, read. Every call is total: a byte past the end reads as 0. `stores` puts them.
#![tactic(auto)]

ghost use Rattle.std.specs.Prelude.{◌≡◌, ◌++◌};
ghost use Rattle.fields.specs.Bytes.{le_at, le_bytes};

pub mod sizes;

use std::array;

// The N bytes from off on, wherever that is; where all of them are there it is one load.
fn bytes_at<const N: usize>(b: &[u8], off: usize) -> [u8; N]
    ensures { le_at N result 0 ≡ le_at N b.now off }
{
    if b.len() <= off {
        return [0; N];
    }
    let rest = &b[off..];
    if let Some(whole) = rest.first_chunk::<N>() {
        return *whole;
    }
    array::from_fn(|i| u8_le(rest, i))
}

// The number at off, wherever that is.
pub fn u8_le(b: &[u8], off: usize) -> u8
    ensures { result ≡ le_at 1 b.now off }
{
    b.get(off).copied().unwrap_or(0)
}

pub fn u16_le(b: &[u8], off: usize) -> u16
    ensures { result ≡ le_at 2 b.now off }
{
    u16::from_le_bytes(bytes_at(b, off))
}

pub fn u32_le(b: &[u8], off: usize) -> u32
    ensures { result ≡ le_at 4 b.now off }
{
    u32::from_le_bytes(bytes_at(b, off))
}

pub fn u64_le(b: &[u8], off: usize) -> u64
    ensures { result ≡ le_at 8 b.now off }
{
    u64::from_le_bytes(bytes_at(b, off))
}

// Two shorts as one word, the low one first in memory.
pub fn pair(lo: u16, hi: u16) -> u32
    ensures { le_bytes 4 result ≡ le_bytes 2 lo ++ le_bytes 2 hi }
{
    u32::from(lo) + 0x1_0000 * u32::from(hi)
}
