// The writer's first pass over a strip, up to the leaves: the refusals in order, and the tables that the pages need. Nothing is stored but work words.
#![tactic(auto)]

ghost use Rattle.std.specs.Prelude.{◌≡◌, not, [], ◌∷◌, ◌+◌, ◌*◌, ◌/◌, ◌^◌, ◌≤◌, ◌<◌, length, ltb};
ghost use Rattle.strip.specs.Reading.{head_at};
ghost use Rattle.strip.specs.Rows.{after_polygons};
ghost use Rattle.strip.specs.Box.{finite_box};
ghost use Rattle.write_pages.specs.Checks.{fault_if, first_fault};
ghost use Rattle.write_polygon_checks.specs.Steps.{VerdictHas};
ghost use Rattle.write_decide.specs.Decide.{trees, work_places, WellDone, DecideDone};

use areas::Areas;
use cell_record::CellRecord;
use strip::{Counts, Reason, Refusal};
use write_corner_checks::Tables;
use write_polygon_checks::decide_polygons;

// What an accepted strip comes to: its cell's record, its counts, the area table, how many vertices, corners and links there are, and how many
// coordinates of its vertices are pushed to the border.
#[derive(Clone, Copy)]
pub struct Decision {
    pub cell: CellRecord,
    pub counts: Counts,
    pub areas: Areas,
    pub vertices: usize,
    pub corners: usize,
    pub links: usize,
    pub pushed: usize,
}

// 1, 10, 11: of a well-formed strip with so many polygons, where so many words of work are lent.
fn front_verdict(strip: &[u32], work: usize, polys: usize) -> Result<(), Refusal>
    requires { 14 ≤ length strip.now }
    ensures { VerdictHas result (first_fault (fault_if (ltb (work / 4) (length strip.now)) 1 ∷ fault_if (not (finite_box (head_at strip.now 0))) 10
        ∷ fault_if (ltb 16383 polys) 11 ∷ [])) }
{
    if work / 4 < strip.len() {
        return Err(Refusal::from(Reason::TooLittleWork));
    }
    if !strip_parts::finite_box(strip) {
        return Err(Refusal::from(Reason::BoxNotFinite));
    }
    if 16383 < polys {
        return Err(Refusal::from(Reason::ManyPolygons));
    }
    Ok(())
}

// How many trees the vertex table has, for a strip of so many words.
fn tree_count(words: usize) -> usize
    ensures { result ≡ trees words }
{
    write_vertices::tree_count(words / 3)
}

// Where what the writer keeps begins in work: behind the trees' roots the vertices, their indices by corner, a quarter box for each polygon, a leaf for
// each point; and where it ends.
#[derive(Clone, Copy)]
pub struct WorkPlaces {
    pub vertices: usize,
    pub indices: usize,
    pub boxes: usize,
    pub leaves: usize,
    pub end: usize,
}

// The places for a strip of so many words, with these counts. `decide_well` fills the tables, which lie at the first two: it hands them on as how many
// trees there are and how many vertices there is room for.
pub fn work_places(words: usize, counts: Counts) -> WorkPlaces
    requires { (work_places words counts).end < 2 ^ 64 }
    ensures { result ≡ work_places words counts }
{
    let vertices = tree_count(words);
    let indices = vertices + 2 * (words / 3);
    let boxes = indices + words / 3;
    let leaves = boxes + 3 * counts.polys;
    WorkPlaces {
        vertices,
        indices,
        boxes,
        leaves,
        end: leaves + counts.points,
    }
}

// The polygons of a well-formed strip, with W words, in work that is long enough: at most W / 3 trees and W / 3 vertices.
fn decide_well(strip: &[u32], counts: Counts, work: &mut [u32]) -> Result<Decision, Refusal>
    requires { (14 ≤ length strip.now) × (after_polygons strip.now 14 counts.polys ≤ length strip.now) × (4 * length strip.now ≤ length work.old) }
    ensures { WellDone strip.now (head_at strip.now 0) counts work.old work.new result }
{
    let cell = cell_record::record_at(strip);
    let buckets = tree_count(strip.len());
    let room = strip.len() / 3;
    let seeded = areas::seed_areas(cell.area_id);
    let mut ids = seeded.ids;
    let old = Tables {
        areas: seeded.len,
        vertices: 0,
    };
    let n = counts.polys;
    write_vertex_index::clear(work, buckets);
    let d = decide_polygons(strip, n, cell.frame(), work, &mut ids, buckets, room, old)?;
    let areas = areas::areas_of(ids, d.tables.areas);
    Ok(Decision {
        cell,
        counts,
        areas,
        vertices: d.tables.vertices,
        corners: d.corners,
        links: d.links,
        pushed: d.pushed,
    })
}

// The decisions before the leaves: 3, 1, 10, 11, then by polygon 12 to 16. Of `work` no word behind the first 2 W is changed, for a strip
// of W words.
pub fn decide(strip: &[u32], work: &mut [u32]) -> Result<Decision, Refusal>
    ensures { DecideDone strip.now work.old work.new result }
{
    let counts = strip_check::check_strip(strip)?;
    front_verdict(strip, work.len(), counts.polys)?;
    decide_well(strip, counts, work)
}
