// Words stored into a strip, and the positions that shorts stand for.
ghost use Rattle.std.specs.Prelude.{◌≡◌, ◌+◌, ◌≤◌, length};
ghost use Rattle.fields.specs.Put.{put};
ghost use Rattle.strip.specs.Cell.{vec_words};
ghost use Rattle.cell_record.specs.Record.{bits};
ghost use Rattle.read_records.specs.Back.{shorts_at, back_by};

use fields::u16_le;
use math::num::bits_of_float;
use math::vec3::Vec3;
use quantise::short::{Frame, Shorts};

// N words, from the strip's word `at` on.
pub fn put_words<const N: usize>(strip: &mut [u32], at: usize, words: [u32; N])
    requires { at + N ≤ length strip.old }
    ensures { strip.new ≡ put at words.entry strip.old }
{
    strip[at..at + N].copy_from_slice(&words);
}

// A vector, by the bits of its floats.
pub(crate) fn put_vec(v: Vec3, strip: &mut [u32], at: usize)
    requires { at + 3 ≤ length strip.old }
    ensures { strip.new ≡ put at (vec_words (bits v)) strip.old }
{
    let x = bits_of_float(v.x);
    let y = bits_of_float(v.y);
    let z = bits_of_float(v.z);
    put_words(strip, at, [x, y, z]);
}

// The three shorts that stand in b from off on.
pub fn shorts_at(b: &[u8], off: usize) -> Shorts
    requires { off ≤ 65536 }
    ensures { result ≡ shorts_at b.now off }
{
    Shorts {
        x: u16_le(b, off),
        y: u16_le(b, off + 2),
        z: u16_le(b, off + 4),
    }
}

// The position that three shorts stand for in a box.
pub fn put_position(q: Shorts, frame: Frame, strip: &mut [u32], at: usize)
    requires { at + 3 ≤ length strip.old }
    ensures { strip.new ≡ put at (vec_words (back_by frame.bb_min frame.bb_size q.x q.y q.z)) strip.old }
{
    put_vec(frame.unquantise(q), strip, at);
}
