// The writer: `serialize_ynv` decides with the plan, and only when nothing is refused fills the lent pages.
#![tactic(auto)]

ghost use Rattle.std.specs.Prelude.{◌≡◌, ◌*◌, ◌≤◌, length, drop};
ghost use Rattle.strip.specs.Reading.{head_at};
ghost use Rattle.strip.specs.Rows.{polygons_at, points_at};
ghost use Rattle.strip.specs.Laid.{first_point, Whole, cell_at};
ghost use Rattle.strip.specs.Outcome.{shown, left, paper};
ghost use Rattle.cell_record.specs.Floats.{floats};
ghost use Rattle.cell_record.specs.Record.{record_of};
ghost use Rattle.pushed.specs.Pushed.{pushed_in, vertices_of, pushed};
ghost use Rattle.pushed.specs.Steps.{with_points};
ghost use Rattle.ynv_write.specs.Serialize.{serialize_outcome};

use strip::{Reason, Refusal};
use write_decide::Decision;

// What an accepted strip came to: the pages' length in bytes, how many of its points they store, how many lie in no leaf and are dropped, and how
// many coordinates, of vertices, portal ends and points, lie outside the box and are pushed to its border.
#[derive(Clone, Copy)]
pub struct Written {
    pub length: usize,
    pub stored: usize,
    pub dropped: usize,
    pub pushed: usize,
}

// How many coordinates are pushed to the border, of polygons, portals and the first so many points: those of vertices were counted where these were numbered.
fn count_pushed(strip: &[u32], d: Decision, points: usize) -> usize
    requires { Whole strip.now d.counts × (points ≤ d.counts.points) × (d.cell ≡ record_of (head_at strip.now 0))
        × (d.pushed ≡ pushed_in (floats (head_at strip.now 0).bb_min) (floats (head_at strip.now 0).bb_size) (vertices_of (polygons_at strip.now 14 d.counts.polys))) }
    ensures { result ≡ pushed (with_points (cell_at strip.now d.counts) (points_at strip.now (first_point strip.now d.counts) points)) }
{
    let first = strip_parts::first_portal(strip, d.counts);
    d.pushed + pushed::pushed_behind(strip, first, d.counts.portals, points, d.cell.frame())
}

// Writes the cell of a strip into the lent pages. A refusal leaves them as they were. Work is for the call's own use, four words to a word of the
// strip, of which no word from twice the strip's words on is changed, refused or not.
pub fn serialize_ynv(strip: &[u32], work: &mut [u32], pages: &mut [u8]) -> Result<Written, Refusal>
    ensures answer { paper result ≡ shown (serialize_outcome strip.now (length work.old) (length pages.old)) }
    ensures pages { pages.new ≡ left (serialize_outcome strip.now (length work.old) (length pages.old)) pages.old }
    ensures work { length work.new ≡ length work.old }
    ensures beyond { drop (2 * length strip.now) work.new ≡ drop (2 * length strip.now) work.old }
{
    let d = write_plan::plan(strip, work)?;
    let ends = write_ends::pages_end(strip, d, work);
    let length = ends.end.at;
    if pages.len() < length {
        return Err(Refusal::from(Reason::TooShort));
    }
    let stored = write_fill::fill(strip, d, ends.sectors, work, pages) as usize;
    let dropped = d.counts.points - stored;
    let pushed = count_pushed(strip, d, d.counts.points);
    Ok(Written {
        length,
        stored,
        dropped,
        pushed,
    })
}
