// What calls share that go through a strip: whether its box is finite; 3, then 10; where its portals and points begin; and the cursor over the halves of a polygon's edges.
#![tactic(auto)]

ghost use Rattle.std.specs.Prelude.{◌≡◌, ◌+◌, ◌*◌, ◌≤◌, length};
ghost use Rattle.strip.specs.Reading.{vec_at, head_at};
ghost use Rattle.strip.specs.Box.{finite_bits, finite_vec, finite_box};
ghost use Rattle.strip.specs.Laid.{first_portal, first_point, Whole};
ghost use Rattle.strip.specs.Outcome.{shown, paper};
ghost use Rattle.strip_parts.specs.BoxedCell.{cell_outcome};
ghost use Rattle.strip_parts.specs.Halves.{half_in};

use strip::{Counts, Poly, Reason, Refusal};

// Half of an edge: the area and the polygon that it lies towards, and whether its edge is below the vertex count. The others are surplus.
#[derive(Clone, Copy)]
pub struct Half {
    pub area: u32,
    pub poly: u32,
    pub inside: bool,
}

// Whether w is the bits of neither an infinity nor a NaN.
fn is_finite(w: u32) -> bool
    ensures { result ≡ finite_bits w }
{
    w % 0x8000_0000 < 0x7F80_0000
}

// Whether three words are: the bits of a vector.
pub fn finite_vec(x: u32, y: u32, z: u32) -> bool
    ensures { result ≡ finite_vec (record { x = x; y = y; z = z }) }
{
    is_finite(x) && is_finite(y) && is_finite(z)
}

// Whether the three words from `at` on are.
fn finite_at(strip: &[u32], at: usize) -> bool
    requires { at + 3 ≤ length strip.now }
    ensures { result ≡ finite_vec (vec_at strip.now at) }
{
    finite_vec(strip[at], strip[at + 1], strip[at + 2])
}

// Whether min, max and size of the cell's box are finite. A caller has the cell's record from `check_strip`.
#[tactic(auto, unfolding(strip::specs::Box::finite_box, strip::specs::Reading::head_at))]
pub fn finite_box(strip: &[u32]) -> bool
    requires { 14 ≤ length strip.now }
    ensures { result ≡ finite_box (head_at strip.now 0) }
{
    finite_at(strip, 5) && finite_at(strip, 8) && finite_at(strip, 11)
}

// Refusals 3, then 10, or the counts.
pub fn check_cell(strip: &[u32]) -> Result<Counts, Refusal>
    ensures { paper result ≡ shown (cell_outcome strip.now) }
{
    let counts = strip_check::check_strip(strip)?;
    if !finite_box(strip) {
        return Err(Refusal::from(Reason::BoxNotFinite));
    }
    Ok(counts)
}

// Where the points begin, counted back from the strip's end. `n` are its counts.
pub fn first_point(strip: &[u32], n: Counts) -> usize
    requires { Whole strip.now n }
    ensures { result ≡ first_point strip.now n }
{
    strip.len() - 1 - 4 * n.points
}

// Where the portals begin, likewise.
pub fn first_portal(strip: &[u32], n: Counts) -> usize
    requires { Whole strip.now n }
    ensures { result ≡ first_portal strip.now n }
{
    first_point(strip, n) - 11 * n.portals
}

// The i-th half of a polygon's edges, of which each has two.
pub fn half_at(strip: &[u32], p: Poly, i: usize) -> Half
    requires { p.edge_at + 3 * i + 3 ≤ length strip.now }
    ensures { result ≡ half_in strip.now p i }
{
    let at = p.edge_at + 3 * i;
    Half {
        area: strip[at],
        poly: strip[at + 1],
        inside: i / 2 < p.vertices,
    }
}
