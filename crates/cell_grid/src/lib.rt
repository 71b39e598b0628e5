// The grid of the map's cells: the cell of a position, and a cell's sides.
#![tactic(auto)]

ghost use Rattle.std.specs.Prelude.{◌≡◌, ◌≤◌};
ghost use Rattle.fields.specs.Bytes.{over};
ghost use Rattle.answers.specs.Words.{number_of, answer_words};
ghost use Rattle.strip.specs.Outcome.{shown, paper};
ghost use Rattle.cell_grid.specs.Grid.{coordinate, cell_at, low_side, bounds_of, bounds_outcome};
ghost use Rattle.cell_grid.specs.Entries.{cell_words, bounds_words};

use answers::{accept, refuse};
use strip::{Reason, Refusal};

pub const CELL_SIZE: f32 = 150.0;

pub const CELL_ORIGIN: f32 = -6000.0;

// A cell by its two coordinates, each from 0 to 99.
#[derive(Clone, Copy)]
pub struct CellXY {
    pub x: u32,
    pub y: u32,
}

// The sides of a cell.
#[derive(Clone, Copy)]
pub struct CellBounds {
    pub x0: f32,
    pub y0: f32,
    pub x1: f32,
    pub y1: f32,
}

// The Rust's `((x - CELL_ORIGIN) / CELL_SIZE).floor().clamp(0.0, 99.0) as u32`.
fn coordinate_of(x: f32) -> u32
    ensures { result ≡ coordinate x }
{
    let t = (x - CELL_ORIGIN) / CELL_SIZE;
    let n = math::num::saturating_f64_to_u64(std::num::f32_to_f64_with_nan(t));
    n.min(99) as u32
}

// The cell that contains a position; for a position beside the grid the nearest one, and coordinate 0 for a NaN.
pub fn cell_for_position(x: f32, y: f32) -> CellXY
    ensures { result ≡ cell_at x y }
{
    CellXY {
        x: coordinate_of(x),
        y: coordinate_of(y),
    }
}

// Where the cells of a coordinate begin.
fn low_side(c: u32) -> f32
    requires { c ≤ 99 }
    ensures { result ≡ low_side c }
{
    CELL_ORIGIN + c as f32 * CELL_SIZE
}

// The sides of a cell of the grid.
fn bounds_of(cx: u32, cy: u32) -> CellBounds
    requires { (cx ≤ 99) × (cy ≤ 99) }
    ensures { result ≡ bounds_of cx cy }
{
    let x0 = low_side(cx);
    let y0 = low_side(cy);
    CellBounds {
        x0,
        y0,
        x1: x0 + CELL_SIZE,
        y1: y0 + CELL_SIZE,
    }
}

// The sides of a cell, or refusal 5 for a coordinate above 99.
pub fn cell_bounds(cx: u32, cy: u32) -> Result<CellBounds, Refusal>
    ensures { paper result ≡ shown (bounds_outcome cx cy) }
{
    if 99 < cx || 99 < cy {
        return Err(Refusal::from(Reason::NoSuchCell));
    }
    Ok(bounds_of(cx, cy))
}

// `cell_for_position` for C: the two coordinates. It refuses nothing.
pub fn cell_entry(x: f32, y: f32, answer: &mut [u64; 8]) -> u32
    ensures number { result ≡ 0 }
    ensures words { answer.new ≡ over (cell_words (cell_at x y)) answer.old }
{
    let c = cell_for_position(x, y);
    accept(answer, &[c.x as u64, c.y as u64])
}

// `cell_bounds` for C: the four sides as the bits of floats, least x, least y, greatest x, greatest y.
pub fn bounds_entry(cx: u32, cy: u32, answer: &mut [u64; 8]) -> u32
    ensures number { result ≡ number_of (shown (bounds_outcome cx cy)) }
    ensures words { answer.new ≡ over (answer_words bounds_words (shown (bounds_outcome cx cy))) answer.old }
{
    match cell_bounds(cx, cy) {
        Ok(b) => accept(
            answer,
            &[
                math::num::bits_of_float(b.x0) as u64,
                math::num::bits_of_float(b.y0) as u64,
                math::num::bits_of_float(b.x1) as u64,
                math::num::bits_of_float(b.y1) as u64,
            ],
        ),
        Err(r) => refuse(answer, u32::from(r.reason), r.place),
    }
}
