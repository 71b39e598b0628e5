// Little-endian fields stored into lent bytes. Every call is total: a byte that would lie past the end is left out.
#![tactic(auto)]

ghost use Rattle.std.specs.Prelude.{◌≡◌, ◌+◌, ◌*◌, ◌≤◌, length};
ghost use Rattle.fields.specs.Bytes.{le_bytes, les};
ghost use Rattle.fields.specs.Put.{put};

// One store, where there is room for all the bytes: the caller tests it once.
fn store(b: &mut [u8], off: usize, bytes: &[u8])
    requires { off + length bytes.now ≤ length b.old }
    ensures { b.new ≡ put off bytes.now b.old }
{
    b[off..off + bytes.len()].copy_from_slice(bytes);
}

// The bytes stored at off, wherever that is; near the end one by one.
fn put_bytes(b: &mut [u8], off: usize, bytes: &[u8])
    ensures { b.new ≡ put off bytes.now b.old }
{
    if b.len() <= off {
        return;
    }
    let room = b.len() - off;
    if bytes.len() <= room {
        store(b, off, bytes);
        return;
    }
    for (i, byte) in bytes.iter().enumerate() {
        if i < room {
            b[off + i] = *byte;
        }
    }
}

pub fn put_u8(b: &mut [u8], off: usize, v: u8)
    ensures { b.new ≡ put off (le_bytes 1 v) b.old }
{
    if off < b.len() {
        b[off] = v;
    }
}

pub fn put_u16(b: &mut [u8], off: usize, v: u16)
    ensures { b.new ≡ put off (le_bytes 2 v) b.old }
{
    put_bytes(b, off, &u16::to_le_bytes(v));
}

pub fn put_u32(b: &mut [u8], off: usize, v: u32)
    ensures { b.new ≡ put off (le_bytes 4 v) b.old }
{
    put_bytes(b, off, &u32::to_le_bytes(v));
}

pub fn put_u64(b: &mut [u8], off: usize, v: u64)
    ensures { b.new ≡ put off (le_bytes 8 v) b.old }
{
    put_bytes(b, off, &u64::to_le_bytes(v));
}

// The n low bytes of v, for any n: past the eighth they are 0, so with v 0 it stores n zeros.
pub fn put_le(b: &mut [u8], off: usize, n: usize, v: u64)
    ensures { b.new ≡ put off (le_bytes n v) b.old }
{
    let end = b.len().min(off.saturating_add(n));
    let mut rest = v;
    for at in off..end {
        b[at] = (rest % 0x100) as u8;
        rest /= 0x100;
    }
}

// The n low bytes of w, by the widths that records are made of where n is one.
fn put_word(b: &mut [u8], off: usize, n: usize, w: u32)
    ensures { b.new ≡ put off (le_bytes n w) b.old }
{
    match n {
        4 => put_u32(b, off, w),
        2 => put_u16(b, off, (w % 0x1_0000) as u16),
        _ => put_le(b, off, n, u64::from(w)),
    }
}

// Words of 4 bytes, one after the other, where there is room for all of them.
fn store_words(b: &mut [u8], off: usize, ws: &[u32])
    requires { off + 4 * length ws.now ≤ length b.old }
    ensures { b.new ≡ put off (les 4 ws.now) b.old }
{
    let mut at = off;
    for w in ws {
        store(b, at, &w.to_le_bytes());
        at += 4;
    }
}

// From so many words on a record is stored whole. Shorter ones are stored word by word: a few words that were just made are copied faster so than all at once.
const WHOLE: usize = 8;

// The n low bytes of each of ws, one after the other. Records are words of 4 bytes and have room, so for a long one room is looked at once for all of them.
pub fn put_all(b: &mut [u8], off: usize, n: usize, ws: &[u32])
    ensures { b.new ≡ put off (les n ws.now) b.old }
{
    if b.len() <= off {
        return;
    }
    if n == 4 && WHOLE <= ws.len() && ws.len() <= (b.len() - off) / 4 {
        store_words(b, off, ws);
        return;
    }
    let mut at = off;
    for w in ws {
        put_word(b, at, n, *w);
        if b.len() - at <= n {
            return;
        }
        at += n;
    }
}
