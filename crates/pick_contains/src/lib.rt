// Whether a polygon of a strip contains a spot: its sides that are crossed, counted.
#![tactic(auto)]

ghost use Rattle.std.specs.Prelude.{◌≡◌, map, ◌+◌, ◌*◌, ◌^◌, ◌≤◌, ◌<◌, length};
ghost use Rattle.quantise.specs.Short.{short};
ghost use Rattle.strip.specs.Reading.{word, vecs_at, polygon_of};
ghost use Rattle.pick_contains.specs.Inside as Inside;
ghost use Rattle.pick_contains.specs.Inside.{left_of, inside};
ghost use Rattle.pick_contains.specs.Vertices.{short_on, spot_on, vertex_spot};

use math::num::float_of_bits;
use quantise::short::quantise_axis;
use strip::Poly;

// A place in the cell's plane, in shorts.
#[derive(Clone, Copy)]
pub struct Spot {
    pub x: u16,
    pub y: u16,
}

// An axis of the cell's box: lo from bb_min and extent from bb_size.
#[derive(Clone, Copy)]
pub struct Axis {
    pub lo: f32,
    pub extent: f32,
}

// A vertex: where it stands in the strip, and its y as a short. Its x is made only where a side may be crossed, which few are.
#[derive(Clone, Copy)]
struct Vertex {
    at: usize,
    y: u16,
}

// A product of shorts, which 32 bits hold.
fn times(a: u16, b: u16) -> u64
    ensures product { result ≡ a * b }
    ensures bound { result < 2 ^ 32 }
{
    u64::from(a) * u64::from(b)
}

// Whether s is strictly left of the side at its height. Of the two ends only `high` is above s.
fn left_of(s: Spot, low: Spot, high: Spot) -> bool
    requires { (low.y ≤ s.y) × (s.y < high.y) }
    ensures { result ≡ left_of s low high }
{
    times(s.x, high.y - low.y) < times(low.x, high.y - s.y) + times(high.x, s.y - low.y)
}

// The short of a coordinate on an axis: the one place where one is made for the cursor.
pub fn short_on(a: f32, axis: Axis) -> u16
    ensures { result ≡ short a axis.lo axis.extent }
{
    quantise_axis(a, axis.lo, axis.extent).q
}

// The same of the coordinate whose bits stand at `at`.
fn short_at(strip: &[u32], at: usize, axis: Axis) -> u16
    requires { at < length strip.now }
    ensures { result ≡ short_on axis (word strip.now at) }
{
    short_on(float_of_bits(strip[at]), axis)
}

// The vertex that stands at `at`.
fn read_vertex(strip: &[u32], at: usize, y: Axis) -> Vertex
    requires { at + 3 ≤ length strip.now }
    ensures { result ≡ record { at = at; y = short_on y (word strip.now (at + 1)) } }
{
    Vertex {
        at,
        y: short_at(strip, at + 1, y),
    }
}

// Its x and y as shorts.
fn vertex_spot(strip: &[u32], v: Vertex, x: Axis) -> Spot
    requires { v.at < length strip.now }
    ensures { result ≡ vertex_spot strip.now x v }
{
    Spot {
        x: short_at(strip, v.at, x),
        y: v.y,
    }
}

// Whether s is strictly left of the side between two vertices of which only `high` is above it.
fn left_of_side(strip: &[u32], s: Spot, low: Vertex, high: Vertex, x: Axis) -> bool
    requires { (low.at < length strip.now) × (high.at < length strip.now) × (low.y ≤ s.y) × (s.y < high.y) }
    ensures { result ≡ left_of s (vertex_spot strip.now x low) (vertex_spot strip.now x high) }
{
    left_of(s, vertex_spot(strip, low, x), vertex_spot(strip, high, x))
}

// Whether the side from a to b is crossed.
fn crossed(strip: &[u32], s: Spot, a: Vertex, b: Vertex, x: Axis) -> bool
    requires { (a.at < length strip.now) × (b.at < length strip.now) }
    ensures { result ≡ Inside.crossed s (vertex_spot strip.now x a) (vertex_spot strip.now x b) }
{
    match (a.y <= s.y, b.y <= s.y) {
        (true, false) => left_of_side(strip, s, a, b, x),
        (false, true) => left_of_side(strip, s, b, a, x),
        _ => false,
    }
}

// How many sides are crossed of n, the first of them from `from` to the vertex at `at`.
fn crossings(strip: &[u32], at: usize, n: usize, x: Axis, y: Axis, s: Spot, from: Vertex) -> usize
    requires { (at + 3 * n ≤ length strip.now) × (from.at < length strip.now) }
    ensures { result ≡ Inside.crossings s (vertex_spot strip.now x from) (map (spot_on x y) (vecs_at strip.now at n)) }
{
    let mut count: usize = 0;
    let mut last = from;
    for i in 0..n {
        let next = read_vertex(strip, at + 3 * i, y);
        // Adding was faster than branching where a polygon's sides lie now left, now right of the spot.
        count += usize::from(crossed(strip, s, last, next, x));
        last = next;
    }
    count
}

// Whether a polygon contains s. Its first side goes from the last vertex to the first.
pub fn contains(strip: &[u32], p: Poly, x: Axis, y: Axis, s: Spot) -> bool
    requires { p.vertex_at + 3 * p.vertices ≤ length strip.now }
    ensures { result ≡ inside s (map (spot_on x y) (polygon_of strip.now p).vertices) }
{
    let n = p.vertices;
    let at = p.vertex_at;
    if n == 0 {
        return false;
    }
    let last = read_vertex(strip, at + 3 * (n - 1), y);
    crossings(strip, at, n, x, y, s, last) % 2 == 1
}
