// The polygons of a strip in order: 12, 13, then the corners' checks, then 16.
#![tactic(auto)]

ghost use Rattle.std.specs.Prelude.{◌≡◌, ◌+◌, ◌*◌, ◌≤◌, length, IfOk};
ghost use Rattle.strip.specs.Reading.{polygon_of};
ghost use Rattle.strip.specs.Rows.{polygons_at, after_polygons};
ghost use Rattle.pushed.specs.Pushed.{pushed_in, vertices_of};
ghost use Rattle.write_corner_checks.specs.Steps.{HasFault, TablesReady};
ghost use Rattle.write_polygon_checks.specs.Steps.{run_fault, PolygonDone, PolygonsDone};

use quantise::short::Frame;
use strip::{Poly, Reason, Refusal};
use write_corner_checks::{Tables, decide_vertices};

// What the polygons come to: the tables, how many corners and links there are, and how many coordinates are pushed.
#[derive(Clone, Copy)]
pub struct Decided {
    pub tables: Tables,
    pub corners: usize,
    pub links: usize,
    pub pushed: usize,
}

// A polygon, whose run of corners begins at `start`: 12, 13, its corners (14, 15), 16. It answers how many coordinates of its vertices are outside.
fn decide_polygon(
    strip: &[u32],
    p: Poly,
    frame: Frame,
    work: &mut [u32],
    ids: &mut [u32; 32],
    buckets: usize,
    room: usize,
    start: usize,
    tables: &mut Tables,
) -> Result<usize, Reason>
    requires { (p.vertex_at + 3 * p.vertices ≤ length strip.now) × (p.edge_at + 6 * p.edges ≤ length strip.now)
        × (start + p.vertices ≤ room) × TablesReady work.old ids.old buckets room tables.old.vertices start }
    ensures polygon { PolygonDone frame.bb_min frame.bb_size work.old work.new ids.old ids.new buckets room tables.old tables.new start
        (polygon_of strip.now p) result }
    ensures pushed { IfOk result (λ pushed. pushed ≡ pushed_in frame.bb_min frame.bb_size (polygon_of strip.now p).vertices) }
{
    check_run(p.vertices, start)?;
    let pushed = decide_vertices(strip, p, frame, work, ids, buckets, room, start, tables)?;
    if 7 < p.links {
        return Err(Reason::ManyLinksOfPolygon);
    }
    Ok(pushed)
}

// 12, 13: of a polygon with so many vertices, whose run begins at `start`.
fn check_run(vertices: usize, start: usize) -> Result<(), Reason>
    ensures { HasFault result (run_fault vertices start) }
{
    if vertices < 3 || 2047 < vertices {
        return Err(Reason::VertexCount);
    }
    if 65535 < start {
        return Err(Reason::VertexStart);
    }
    Ok(())
}

// The polygons of a strip, in order, up to the first refusal.
pub fn decide_polygons(
    strip: &[u32],
    n: usize,
    frame: Frame,
    work: &mut [u32],
    ids: &mut [u32; 32],
    buckets: usize,
    room: usize,
    old: Tables,
) -> Result<Decided, Refusal>
    requires { (after_polygons strip.now 14 n ≤ length strip.now) × (length strip.now ≤ 3 * room + 2)
        × TablesReady work.old ids.old buckets room old.vertices 0 }
    ensures polygons { PolygonsDone frame.bb_min frame.bb_size work.old work.new ids.old ids.new buckets room old 0 0 0
        (polygons_at strip.now 14 n) result }
    ensures pushed { IfOk result (λ decided. decided.pushed ≡ pushed_in frame.bb_min frame.bb_size (vertices_of (polygons_at strip.now 14 n))) }
{
    let mut tables = old;
    let mut at = 14;
    let mut start = 0;
    let mut links = 0;
    let mut pushed = 0;
    for i in 0..n {
        let p = strip::poly_at(strip, at);
        let run = decide_polygon(
            strip,
            p,
            frame,
            work,
            ids,
            buckets,
            room,
            start,
            &mut tables,
        );
        // A match and no map_err: with a closure the loop's goals would speak of a counter that it borrows.
        let outside = match run {
            Ok(outside) => outside,
            Err(reason) => return Err(Refusal { reason, place: i }),
        };
        start += p.vertices;
        links += p.links;
        pushed += outside;
        at = p.next;
    }
    Ok(Decided {
        tables,
        corners: start,
        links,
        pushed,
    })
}
