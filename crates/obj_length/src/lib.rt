// How long a drawing's text is, from its shorts and counts alone, before a byte of it is written. A length that no number names is the last one that is.
#![tactic(auto)]

ghost use Rattle.std.specs.Prelude.{◌≡◌, ◌+◌, ◌*◌, ◌^◌, ◌≤◌, ◌<◌, min, length};
ghost use Rattle.decimal.specs.Text.{decimal};
ghost use Rattle.strip.specs.Cell.{each};
ghost use Rattle.strip.specs.Reading.{vec_at, vecs_at, head_at};
ghost use Rattle.strip.specs.Rows.{polygons_at, after_polygons};
ghost use Rattle.obj_lines.specs.Lines.{spaced, shorts_line, vertex_line, consecutive};
ghost use Rattle.obj_text.specs.Text.{vertex_lines, text_of};
ghost use Rattle.obj_text.specs.Counts.{vertex_count};
ghost use Rattle.obj_length.specs.Last.{last};

use cell_record::record_at;
use math::vec3::floats_at;
use quantise::short::{Frame, Shorts};
use strip::poly_at;

// How many digits a short has: one, and another from 10, 100, 1,000 and 10,000 on. It is a sum, since no branch predicts the digits of a vertex.
fn digits_of(n: u16) -> usize
    ensures { result ≡ length (decimal n) }
{
    1 + usize::from(n >= 10)
        + usize::from(n >= 100)
        + usize::from(n >= 1000)
        + usize::from(n >= 10000)
}

// The bytes of the line of three shorts.
fn shorts_length(q: Shorts) -> usize
    ensures { result ≡ length (shorts_line q) }
{
    5 + digits_of(q.x) + digits_of(q.y) + digits_of(q.z)
}

// The bytes of the line of the vertex whose words stand at `place`.
fn vertex_length(strip: &[u32], place: usize, frame: Frame) -> usize
    requires { place + 3 ≤ length strip.now }
    ensures { result ≡ length (vertex_line frame.bb_min frame.bb_size (vec_at strip.now place)) }
{
    let v = floats_at(strip, place);
    shorts_length(frame.shorts_of(v))
}

// The bytes of the lines of n vertices from `from` on.
fn vertices_length(strip: &[u32], from: usize, n: usize, frame: Frame) -> usize
    requires { (n < 4096) × (from + 3 * n ≤ length strip.now) }
    ensures { result ≡ length (each (vertex_line frame.bb_min frame.bb_size) (vecs_at strip.now from n)) }
{
    let mut bytes = 0;
    for i in 0..n {
        bytes += vertex_length(strip, from + 3 * i, frame);
    }
    bytes
}

// The bytes of the vertex lines of the first n polygons.
fn polygons_length(strip: &[u32], n: usize, frame: Frame) -> usize
    requires { after_polygons strip.now 14 n ≤ length strip.now }
    ensures { result ≡ min (length (each (vertex_lines frame.bb_min frame.bb_size) (polygons_at strip.now 14 n))) last }
{
    let mut bytes: usize = 0;
    let mut at = 14;
    for _ in 0..n {
        let p = poly_at(strip, at);
        let lines = vertices_length(strip, p.vertex_at, p.vertices, frame);
        bytes = bytes.saturating_add(lines);
        at = p.next;
    }
    bytes
}

// The bytes of the numbers 1 to n, each behind its space: a digit for each number from 1 on, another for each from 10 on, and so forth.
fn numbers_length(n: usize) -> usize
    requires { n < 10 ^ 19 }
    ensures { result ≡ min (length (each spaced (consecutive 1 n))) last }
{
    let mut bytes = n;
    let mut tens: usize = 1;
    for _ in 0..19usize {
        bytes = bytes.saturating_add((n + 1).saturating_sub(tens));
        tens *= 10;
    }
    bytes
}

// The bytes of the whole text of n polygons, which have so many vertices: the vertices' lines, the numbers, and two for each polygon's line.
pub fn measure(strip: &[u32], n: usize, vertices: usize) -> usize
    requires { (14 ≤ length strip.now) × (after_polygons strip.now 14 n ≤ length strip.now) × (vertices ≡ vertex_count (polygons_at strip.now 14 n)) }
    ensures { result ≡ min (length (text_of (head_at strip.now 0) (polygons_at strip.now 14 n))) last }
{
    let cell = record_at(strip);
    polygons_length(strip, n, cell.frame())
        .saturating_add(numbers_length(vertices))
        .saturating_add(n)
        .saturating_add(n)
}
