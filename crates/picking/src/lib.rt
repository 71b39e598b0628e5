// What lies under the cursor: the lowest-numbered polygon that contains a spot, and the spot of a position.
#![tactic(auto)]

ghost use Rattle.std.specs.Prelude.{◌≡◌, ◌≤◌, length};
ghost use Rattle.strip.specs.Reading.{head_at};
ghost use Rattle.strip.specs.Rows.{polygons_at, after_polygons};
ghost use Rattle.strip.specs.Outcome.{shown, paper};
ghost use Rattle.picking.specs.Picking as Picking;
ghost use Rattle.picking.specs.Picking.{first_from, pick_outcome, spot_outcome};
ghost use Rattle.picking.specs.Axes.{x_axis, y_axis};

use cell_record::{CellRecord, record_at};
use pick_contains::{Axis, Spot, contains, short_on};
use strip::{Refusal, poly_at};
use strip_parts::check_cell;

// The x axis of the cell's box, and its y axis.
fn axes(cell: CellRecord) -> (Axis, Axis)
    ensures x { result.0 ≡ x_axis cell }
    ensures y { result.1 ≡ y_axis cell }
{
    let x = Axis {
        lo: cell.bb_min.x,
        extent: cell.bb_size.x,
    };
    let y = Axis {
        lo: cell.bb_min.y,
        extent: cell.bb_size.y,
    };
    (x, y)
}

// The first of n polygons that contains s.
fn first_containing(strip: &[u32], n: usize, s: Spot) -> Option<usize>
    requires { (14 ≤ length strip.now) × (after_polygons strip.now 14 n ≤ length strip.now) }
    ensures { result ≡ first_from (Picking.contains (head_at strip.now 0) s) 0 (polygons_at strip.now 14 n) }
{
    let (x, y) = axes(record_at(strip));
    let mut at = 14;
    for i in 0..n {
        let p = poly_at(strip, at);
        if contains(strip, p, x, y, s) {
            return Some(i);
        }
        at = p.next;
    }
    None
}

// The lowest-numbered polygon that contains the spot (x, y), none, or refusal 3 or 10.
pub fn pick_poly(strip: &[u32], x: u16, y: u16) -> Result<Option<usize>, Refusal>
    ensures { paper result ≡ shown (pick_outcome strip.now (record { x = x; y = y })) }
{
    let counts = check_cell(strip)?;
    Ok(first_containing(strip, counts.polys, Spot { x, y }))
}

// The spot of a position in the cell's box, or refusal 3 or 10.
pub fn spot_for_position(strip: &[u32], x: f32, y: f32) -> Result<Spot, Refusal>
    ensures { paper result ≡ shown (spot_outcome strip.now x y) }
{
    check_cell(strip)?;
    let (x_axis, y_axis) = axes(record_at(strip));
    Ok(Spot {
        x: short_on(x, x_axis),
        y: short_on(y, y_axis),
    })
}
