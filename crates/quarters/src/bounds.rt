// A polygon's bounds, from the words of its vertices: three to a vertex, floats as their bits.
ghost use Rattle.std.specs.Prelude.{◌≡◌, ◌+◌, ◌-◌, ◌*◌, ◌/◌, ◌≤◌, min, length};
ghost use Rattle.quarters.specs.Bounding.{held, Bounding, quarter_bounds};

use super::quarter::{QuarterBox, quarter_box};
use math::vec3::{Vec3, floats_at};

// A box with its sides along the axes.
#[derive(Clone, Copy)]
pub struct Aabb {
    pub min: Vec3,
    pub max: Vec3,
}

// Min and max of n vertices that are there.
fn bounds_of(strip: &[u32], at: usize, n: usize) -> Aabb
    requires { 3 * n ≤ length strip.now - at }
    ensures { Bounding strip.now at n result }
{
    let mut min = Vec3::new(f32::MAX, f32::MAX, f32::MAX);
    let mut max = Vec3::new(f32::MIN, f32::MIN, f32::MIN);
    for i in 0..n {
        let v = floats_at(strip, at + 3 * i);
        min = min.min(v);
        max = max.max(v);
    }
    Aabb { min, max }
}

// The bounds of `count` vertices from word `at` on. Those that the strip does not hold whole are
// left out. With none it is the start values, where the Rust has a box of zeros; a polygon with
// none is refused before its box is asked for.
pub fn bounds(strip: &[u32], at: usize, count: usize) -> Aabb
    ensures { Bounding strip.now at (held strip.now at count) result }
{
    let whole = strip.len().saturating_sub(at) / 3;
    bounds_of(strip, at, count.min(whole))
}

// The quarter box of those bounds, in which no zero's sign shows.
pub fn quarter_bounds(strip: &[u32], at: usize, count: usize) -> QuarterBox
    ensures { result ≡ quarter_bounds strip.now at (held strip.now at count) }
{
    let b = bounds(strip, at, count);
    quarter_box(b.min, b.max)
}
