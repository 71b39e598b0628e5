// The text of a drawing, stored where there is room for it: a line for each vertex of each polygon, then a line for each polygon.
#![tactic(auto)]

ghost use Rattle.std.specs.Prelude.{◌+◌, ◌*◌, ◌≤◌, length};
ghost use Rattle.decimal.specs.Stored.{Stored};
ghost use Rattle.strip.specs.Cell.{each};
ghost use Rattle.strip.specs.Reading.{vecs_at, head_at};
ghost use Rattle.strip.specs.Rows.{polygons_at, after_polygons};
ghost use Rattle.obj_lines.specs.Lines.{vertex_line};
ghost use Rattle.obj_text.specs.Text.{vertex_lines, face_lines, text_of};

use cell_record::record_at;
use obj_lines::{put_face, put_vertex};
use quantise::short::Frame;
use strip::poly_at;

// The lines of n vertices from `from` on.
fn put_vertices(
    text: &mut [u8],
    at: usize,
    strip: &[u32],
    from: usize,
    n: usize,
    frame: Frame,
) -> usize
    requires { (from + 3 * n ≤ length strip.now) × (at + length (each (vertex_line frame.bb_min frame.bb_size) (vecs_at strip.now from n)) ≤ length text.old) }
    ensures { Stored at (each (vertex_line frame.bb_min frame.bb_size) (vecs_at strip.now from n)) text.old text.new result }
{
    let mut to = at;
    for i in 0..n {
        to = put_vertex(text, to, strip, from + 3 * i, frame);
    }
    to
}

// The vertex lines of the first n polygons.
fn put_polygons(text: &mut [u8], strip: &[u32], n: usize, frame: Frame) -> usize
    requires { (after_polygons strip.now 14 n ≤ length strip.now) × (length (each (vertex_lines frame.bb_min frame.bb_size) (polygons_at strip.now 14 n)) ≤ length text.old) }
    ensures { Stored 0 (each (vertex_lines frame.bb_min frame.bb_size) (polygons_at strip.now 14 n)) text.old text.new result }
{
    let mut to = 0;
    let mut at = 14;
    for _ in 0..n {
        let p = poly_at(strip, at);
        to = put_vertices(text, to, strip, p.vertex_at, p.vertices, frame);
        at = p.next;
    }
    to
}

// The face lines of the first n polygons, from `start` on.
fn put_faces(text: &mut [u8], start: usize, strip: &[u32], n: usize) -> usize
    requires { (after_polygons strip.now 14 n ≤ length strip.now) × (start + length (face_lines 1 (polygons_at strip.now 14 n)) ≤ length text.old) }
    ensures { Stored start (face_lines 1 (polygons_at strip.now 14 n)) text.old text.new result }
{
    let mut to = start;
    let mut at = 14;
    let mut number = 1;
    for _ in 0..n {
        let p = poly_at(strip, at);
        to = put_face(text, to, number, p.vertices);
        number += p.vertices;
        at = p.next;
    }
    to
}

// The whole text of n polygons, and the place behind it.
pub fn put_obj(text: &mut [u8], strip: &[u32], n: usize) -> usize
    requires { (14 ≤ length strip.now) × (after_polygons strip.now 14 n ≤ length strip.now) × (length (text_of (head_at strip.now 0) (polygons_at strip.now 14 n)) ≤ length text.old) }
    ensures { Stored 0 (text_of (head_at strip.now 0) (polygons_at strip.now 14 n)) text.old text.new result }
{
    let cell = record_at(strip);
    let to = put_polygons(text, strip, n, cell.frame());
    put_faces(text, to, strip, n)
}
