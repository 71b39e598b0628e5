// The writer's first pass whole: what `decide` decides, then the polygons' quarter boxes and the points' leaves in work, then 17 to 20.
#![tactic(auto)]

ghost use Rattle.std.specs.Prelude.{◌≡◌, [], ◌∷◌, ltb, ◌+◌, ◌*◌, ◌≤◌, length};
ghost use Rattle.write_pages.specs.Checks.{fault_if, first_fault, at};
ghost use Rattle.write_decide.specs.Decide.{work_places};
ghost use Rattle.write_polygon_checks.specs.Steps.{VerdictHas};
ghost use Rattle.fields.specs.Put.{put};
ghost use Rattle.strip.specs.Reading.{head_at, polygon_of};
ghost use Rattle.strip.specs.Rows.{polygons_at, after_polygons, points_at};
ghost use Rattle.strip.specs.Laid.{Whole};
ghost use Rattle.cell_record.specs.Record.{record_of};
ghost use Rattle.write_pages.specs.Items.{box_of};
ghost use Rattle.write_pages.specs.Sectors.{leaves, depth_of, leaf_counts, tree_of};
ghost use Rattle.write_leaf_checks.specs.FirstRefused.{FirstRefused};
ghost use Rattle.write_plan.specs.Plan.{box_words, boxes, leaf_words, points_in, rest_words, WorkHeld, Planned};

use cell_record::CellRecord;
use math::vec3::floats_at;
use quarters::bounds::Aabb;
use strip::{Counts, Poly, Reason, Refusal};
use write_decide::Decision;
use write_leaf_counts::quarter_pair;

// A polygon's quarter box, in three words from `at` on.
fn put_box(strip: &[u32], p: Poly, work: &mut [u32], at: usize)
    requires { (p.vertex_at + 3 * p.vertices ≤ length strip.now) × (at + 3 ≤ length work.old) }
    ensures { work.new ≡ put at (box_words (box_of (polygon_of strip.now p))) work.old }
{
    let q = quarters::bounds::quarter_bounds(strip, p.vertex_at, p.vertices);
    work[at] = quarter_pair(q.x_min, q.x_max);
    work[at + 1] = quarter_pair(q.y_min, q.y_max);
    work[at + 2] = quarter_pair(q.z_min, q.z_max);
}

// The quarter boxes of n polygons, from `base` on.
fn put_boxes(strip: &[u32], n: usize, work: &mut [u32], base: usize)
    requires { (after_polygons strip.now 14 n ≤ length strip.now) × (base + 3 * n ≤ length work.old) }
    ensures { work.new ≡ put base (boxes (polygons_at strip.now 14 n)) work.old }
{
    let mut at = 14;
    for i in 0..n {
        let p = strip::poly_at(strip, at);
        put_box(strip, p, work, base + 3 * i);
        at = p.next;
    }
}

// The leaves of n points whose records begin at `first`, from `base` on.
fn put_leaves(
    strip: &[u32],
    first: usize,
    n: usize,
    content: u32,
    b: Aabb,
    work: &mut [u32],
    base: usize,
)
    requires { (first + 4 * n ≤ length strip.now) × (base + n ≤ length work.old) }
    ensures { work.new ≡ put base (leaf_words (leaves (depth_of content) b) (points_at strip.now first n)) work.old }
{
    let depth = write_quadtree::boxes::depth_of(content);
    let lines = write_quadtree::boxes::lines_of(b);
    for i in 0..n {
        let p = floats_at(strip, first + 4 * i + 1);
        work[base + i] = write_quadtree::boxes::leaf_of(depth, b, lines, p);
    }
}

// The quarter boxes, then the points' leaves, behind the tables.
fn put_rest(strip: &[u32], cell: CellRecord, counts: Counts, work: &mut [u32])
    requires { (14 ≤ length strip.now) × (cell ≡ record_of (head_at strip.now 0)) × Whole strip.now counts × (4 * length strip.now ≤ length work.old) }
    ensures { work.new ≡ put (work_places (length strip.now) counts).boxes (rest_words strip.now counts) work.old }
{
    let places = write_decide::work_places(strip.len(), counts);
    let n = counts.polys;
    let points = counts.points;
    put_boxes(strip, n, work, places.boxes);
    let b = cell.root_box();
    let first = strip_parts::first_point(strip, counts);
    put_leaves(
        strip,
        first,
        points,
        cell.content_flags,
        b,
        work,
        places.leaves,
    );
}

// 17 and 18, by the words behind the tables.
fn check_leaves(
    strip: &[u32],
    cell: CellRecord,
    counts: Counts,
    work: &[u32],
) -> Result<(), Refusal>
    requires { (cell ≡ record_of (head_at strip.now 0)) × WorkHeld strip.now counts work.now }
    ensures { FirstRefused result 0 (leaf_counts (tree_of (head_at strip.now 0) (polygons_at strip.now 14 counts.polys) (points_in strip.now counts))) }
{
    let places = write_decide::work_places(strip.len(), counts);
    let boxes = places.boxes;
    let leaves = places.leaves;
    let end = places.end;
    let b = cell.root_box();
    let depth = write_quadtree::boxes::depth_of(cell.content_flags);
    write_leaf_checks::check_leaves(depth, b, &work[boxes..leaves], &work[leaves..end])
}

// 19 and 20.
fn count_verdict(portals: usize, links: usize) -> Result<(), Refusal>
    ensures { VerdictHas result (first_fault (fault_if (ltb 585 portals) 19 ∷ fault_if (ltb 8192 links) 20 ∷ [])) }
{
    if 585 < portals {
        return Err(Refusal::from(Reason::ManyPortals));
    }
    if 8192 < links {
        return Err(Refusal::from(Reason::ManyLinks));
    }
    Ok(())
}

// All decisions before a byte is stored, but for 2: 3, 1, 10, 11, by polygon 12 to 16, by leaf 17 and 18, 19, 20. Of `work` no word behind the
// first 2 W is changed, for a strip of W words.
pub fn plan(strip: &[u32], work: &mut [u32]) -> Result<Decision, Refusal>
    ensures { Planned strip.now work.old work.new result }
{
    let d = write_decide::decide(strip, work)?;
    put_rest(strip, d.cell, d.counts, work);
    check_leaves(strip, d.cell, d.counts, work)?;
    count_verdict(d.counts.portals, d.links)?;
    Ok(d)
}
