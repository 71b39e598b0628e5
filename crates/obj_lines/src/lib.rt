// The lines of a drawing, stored where there is room for them: a vertex by its shorts, a polygon by the numbers of its vertices.
#![tactic(auto)]

ghost use Rattle.std.specs.Prelude.{◌+◌, ◌^◌, ◌≤◌, ◌<◌, length};
ghost use Rattle.decimal.specs.Stored.{Stored};
ghost use Rattle.strip.specs.Reading.{vec_at};
ghost use Rattle.obj_lines.specs.Lines.{shorts_line, vertex_line, consecutive, face_line};

use math::vec3::floats_at;
use obj_digits::put_spaced;
use quantise::short::{Frame, Shorts};

// The line of three shorts.
fn put_shorts(text: &mut [u8], at: usize, q: Shorts) -> usize
    requires { at + length (shorts_line q) ≤ length text.old }
    ensures { Stored at (shorts_line q) text.old text.new result }
{
    text[at] = b'v';
    let x = put_spaced(text, at + 1, u64::from(q.x));
    let y = put_spaced(text, x, u64::from(q.y));
    let z = put_spaced(text, y, u64::from(q.z));
    text[z] = b'\n';
    z + 1
}

// The line of the vertex whose words stand at `place`.
pub fn put_vertex(text: &mut [u8], at: usize, strip: &[u32], place: usize, frame: Frame) -> usize
    requires { (place + 3 ≤ length strip.now) × (at + length (vertex_line frame.bb_min frame.bb_size (vec_at strip.now place)) ≤ length text.old) }
    ensures { Stored at (vertex_line frame.bb_min frame.bb_size (vec_at strip.now place)) text.old text.new result }
{
    let v = floats_at(strip, place);
    put_shorts(text, at, frame.shorts_of(v))
}

// The line of a polygon of n vertices, the first of them number `first` of the text.
pub fn put_face(text: &mut [u8], at: usize, first: usize, n: usize) -> usize
    requires { (first + n < 2 ^ 64) × (at + length (face_line (consecutive first n)) ≤ length text.old) }
    ensures { Stored at (face_line (consecutive first n)) text.old text.new result }
{
    text[at] = b'f';
    let mut to = at + 1;
    for number in first..first + n {
        to = put_spaced(text, to, number as u64);
    }
    text[to] = b'\n';
    to + 1
}
