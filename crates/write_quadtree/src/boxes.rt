// How a box splits itself in four, and the leaf that takes a point.
ghost use Rattle.std.specs.Prelude.{◌≡◌, ◌&&◌, [], ◌∷◌, ◌+◌, ◌%◌, ◌^◌, ◌≤◌, ◌<◌};
ghost use Rattle.write_pages.specs.Sectors.{middle, centre, sub0, sub1, sub2, sub3, between, inside, leaves, leaf_of, depth_of};
ghost use Rattle.write_quadtree.specs.Lines.{axis_lines, lines_of, ranges_of, first_of, subs_of, leaves_of};

use math::vec3::Vec3;
use quarters::bounds::Aabb;

// The bit of a cell's content flags that says a vehicle carries it.
const CONTENT_VEHICLE: u32 = 4;

fn middle_of(a: f32, b: f32) -> f32
    ensures { result ≡ middle a b }
{
    (a + b) * 0.5
}

// (min + max) × 0.5
pub fn centre_of(b: Aabb) -> Vec3
    ensures { result ≡ centre b }
{
    Vec3 {
        x: middle_of(b.min.x, b.max.x),
        y: middle_of(b.min.y, b.max.y),
        z: middle_of(b.min.z, b.max.z),
    }
}

// The four subs of a box, in writing order. (An array would be no plainer: each has a definition and a clause of its own, and no loop goes over them.)
#[derive(Clone, Copy)]
pub struct Subs {
    pub s0: Aabb,
    pub s1: Aabb,
    pub s2: Aabb,
    pub s3: Aabb,
}

pub fn split(b: Aabb) -> Subs
    ensures s0 { result.s0 ≡ sub0 b }
    ensures s1 { result.s1 ≡ sub1 b }
    ensures s2 { result.s2 ≡ sub2 b }
    ensures s3 { result.s3 ≡ sub3 b }
{
    let c = centre_of(b);
    let Aabb { min, max } = b;
    Subs {
        s0: Aabb { min: c, max },
        s1: Aabb {
            min: Vec3::new(c.x, min.y, 0.0),
            max: Vec3::new(max.x, c.y, 0.0),
        },
        s2: Aabb { min, max: c },
        s3: Aabb {
            min: Vec3::new(min.x, c.y, 0.0),
            max: Vec3::new(c.x, max.y, 0.0),
        },
    }
}

// How often a cell's box splits, by its content flags: twice, and a vehicle's not at all.
pub fn depth_of(content: u32) -> u32
    ensures depth { result ≡ depth_of content }
    ensures bound { result ≤ 2 }
    ensures even { result % 2 ≡ 0 }
{
    if content / CONTENT_VEHICLE % 2 == 0 {
        2
    } else {
        0
    }
}

// How many leaves a box has that splits so often.
pub fn leaf_count(depth: u32) -> u32
    requires { depth ≤ 2 }
    ensures count { result ≡ 4 ^ depth }
    ensures bound { result ≤ 16 }
{
    1 << (2 * depth)
}

fn is_between(lo: f32, x: f32, hi: f32) -> bool
    ensures { result ≡ between lo x hi }
{
    lo <= x && x <= hi
}

// Whether p is inside the box in x and y, borders included.
fn is_inside(b: Aabb, p: Vec3) -> bool
    ensures { result ≡ inside b p }
{
    is_between(b.min.x, p.x, b.max.x) && is_between(b.min.y, p.y, b.max.y)
}

// The sides of the 16 leaves of a box on one axis, from its min to its max.
#[derive(Clone, Copy)]
pub struct AxisLines {
    pub a0: f32,
    pub a1: f32,
    pub a2: f32,
    pub a3: f32,
    pub a4: f32,
}

// On both.
#[derive(Clone, Copy)]
pub struct Lines {
    pub x: AxisLines,
    pub y: AxisLines,
}

fn axis_lines(lo: f32, hi: f32) -> AxisLines
    ensures { result ≡ axis_lines lo hi }
{
    let mid = middle_of(lo, hi);
    AxisLines {
        a0: lo,
        a1: middle_of(lo, mid),
        a2: mid,
        a3: middle_of(mid, hi),
        a4: hi,
    }
}

pub fn lines_of(b: Aabb) -> Lines
    ensures { result ≡ lines_of b }
{
    Lines {
        x: axis_lines(b.min.x, b.max.x),
        y: axis_lines(b.min.y, b.max.y),
    }
}

// Which of an axis's four ranges a number is in, borders included.
#[derive(Clone, Copy)]
pub struct Ranges {
    pub r0: bool,
    pub r1: bool,
    pub r2: bool,
    pub r3: bool,
}

fn ranges_of(a: AxisLines, x: f32) -> Ranges
    ensures { result ≡ ranges_of a x }
{
    Ranges {
        r0: is_between(a.a0, x, a.a1),
        r1: is_between(a.a1, x, a.a2),
        r2: is_between(a.a2, x, a.a3),
        r3: is_between(a.a3, x, a.a4),
    }
}

// The first of two subs with one range of x that a point is inside, by whether it is in that range and in theirs of y; 2 where it is in neither. Beside them in x
// it needs no look at y.
#[tactic(auto, unfolding(crate::specs::Lines::first_of))]
fn side_of(x: bool, y_first: bool, y_second: bool) -> u32
    ensures side { result ≡ first_of ((x && y_first) ∷ (x && y_second) ∷ []) }
    ensures bound { result ≤ 2 }
{
    if x && y_first {
        0
    } else if x && y_second {
        1
    } else {
        2
    }
}

// The first of a sector's four subs that a point is inside, which is in the lower range of an axis, in the upper one, in both or in none; 4 where it
// is in no sub.
fn sub_of(x_low: bool, x_high: bool, y_low: bool, y_high: bool) -> u32
    ensures sub { result ≡ first_of (subs_of x_low x_high y_low y_high) }
    ensures bound { result ≤ 4 }
{
    let s = side_of(x_high, y_high, y_low);
    if s < 2 {
        return s;
    }
    2 + side_of(x_low, y_low, y_high)
}

// The first of 16 leaves that a point in these ranges is inside; 16 where it is in none.
fn leaf_in(x: Ranges, y: Ranges) -> u32
    ensures { result ≡ first_of (leaves_of x y) }
{
    let s0 = sub_of(x.r2, x.r3, y.r2, y.r3);
    if s0 < 4 {
        return s0;
    }
    let s1 = sub_of(x.r2, x.r3, y.r0, y.r1);
    if s1 < 4 {
        return 4 + s1;
    }
    let s2 = sub_of(x.r0, x.r1, y.r0, y.r1);
    if s2 < 4 {
        return 8 + s2;
    }
    12 + sub_of(x.r0, x.r1, y.r2, y.r3)
}

// The same where the box itself is the only leaf.
fn leaf_alone(b: Aabb, p: Vec3) -> u32
    ensures { result ≡ leaf_of (leaves 0 b) p }
{
    if is_inside(b, p) { 0 } else { 1 }
}

// The leaf that takes a point of a cell with this depth and this box, whose leaves have these sides: the first in writing order that the point is
// inside, and the number of leaves where it is in none.
pub fn leaf_of(depth: u32, b: Aabb, l: Lines, p: Vec3) -> u32
    requires { (l ≡ lines_of b) × (depth ≤ 2) × (depth % 2 ≡ 0) }
    ensures { result ≡ leaf_of (leaves depth b) p }
{
    if depth == 0 {
        return leaf_alone(b, p);
    }
    leaf_in(ranges_of(l.x, p.x), ranges_of(l.y, p.y))
}
