// The corners of a polygon in order: per vertex 14, then 15 for half a and b. On the way the vertex table, each corner's index and the area table
// are made, and the coordinates that are pushed to the border are counted.
#![tactic(auto)]

ghost use Rattle.std.specs.Prelude.{◌≡◌, ◌+◌, ◌*◌, ◌≤◌, ◌<◌, ◌^◌, length, IfOk};
ghost use Rattle.strip.specs.Reading.{vec_at, polygon_of};
ghost use Rattle.quantise.specs.Short.{outside_count};
ghost use Rattle.cell_record.specs.Floats.{floats};
ghost use Rattle.pushed.specs.Pushed.{pushed_in};
ghost use Rattle.write_pages.specs.Items.{triple_in, corners_in};
ghost use Rattle.write_corner_checks.specs.Steps.{area_or, AreaHas, EdgeHas, TablesReady, CornerDone, CornersDone};

use math::vec3::floats_at;
use quantise::short::Frame;
use strip::{Poly, Reason};

// How many areas and vertices there are.
#[derive(Clone, Copy)]
pub struct Tables {
    pub areas: usize,
    pub vertices: usize,
}

// A vertex as the writer numbers it, and how many of its coordinates are outside.
#[derive(Clone, Copy)]
pub struct Vertex {
    pub triple: u64,
    pub outside: usize,
}

// An area in the table: how many there are then, or 15 where it would be a 33rd.
fn ensure_area(ids: &mut [u32; 32], len: usize, id: u32) -> Result<usize, Reason>
    requires { length ids.old ≡ 32 }
    ensures { AreaHas ids.old ids.new len id result }
{
    let entry = areas::ensure_id(ids, len, id);
    match entry.at {
        Some(_) => Ok(entry.len),
        None => Err(Reason::ManyAreas),
    }
}

// The areas of both halves of an edge: how many there are then, or 15.
fn ensure_edge(ids: &mut [u32; 32], len: usize, a: u32, b: u32) -> Result<usize, Reason>
    requires { length ids.old ≡ 32 }
    ensures { EdgeHas ids.old ids.new len a b result }
{
    let one = ensure_area(ids, len, a)?;
    ensure_area(ids, one, b)
}

// The vertex whose three words stand at `at`.
fn vertex_at(strip: &[u32], at: usize, frame: Frame) -> Vertex
    requires { at + 3 ≤ length strip.now }
    ensures triple { result.triple ≡ triple_in frame.bb_min frame.bb_size (vec_at strip.now at) }
    ensures below { result.triple < 2 ^ 48 }
    ensures outside { result.outside ≡ outside_count (floats (vec_at strip.now at)) frame.bb_min frame.bb_size }
    ensures bound { result.outside ≤ 3 }
{
    let v = floats_at(strip, at);
    let made = frame.quantise(v);
    let q = made.shorts;
    Vertex {
        triple: u64::from(q.x) + 65536 * u64::from(q.y) + 4294967296 * u64::from(q.z),
        outside: made.outside as usize,
    }
}

// The area that stands at `at` for a half of edge i, or that of no neighbour where there are only `edges`.
fn area_at(strip: &[u32], at: usize, i: usize, edges: usize) -> u32
    requires { i < edges → at < length strip.now }
    ensures { result ≡ area_or strip.now at i edges }
{
    if i < edges {
        return strip[at];
    }
    areas::ADJACENT_NONE
}

// A corner: its triple is numbered (14), the areas of its edge are ensured (15), and its number is stored as index `item`. The vertices are counted
// before the areas, since a new one is in the table after a 15 too.
fn decide_corner(
    work: &mut [u32],
    ids: &mut [u32; 32],
    buckets: usize,
    room: usize,
    item: usize,
    tables: &mut Tables,
    triple: u64,
    a: u32,
    b: u32,
) -> Result<(), Reason>
    requires { TablesReady work.old ids.old buckets room tables.old.vertices item × (item < room) × (triple < 2 ^ 48) }
    ensures { CornerDone work.old work.new ids.old ids.new buckets room tables.old tables.new item triple a b result }
{
    let Some(known) = write_vertex_index::vertex_index(work, buckets, tables.vertices, triple)
    else {
        return Err(Reason::ManyVertices);
    };
    tables.vertices = known.count;
    tables.areas = ensure_edge(ids, tables.areas, a, b)?;
    work[buckets + 2 * room + item] = known.number as u32;
    Ok(())
}

// The corners of a polygon, the first of them number `start`. It answers how many coordinates of their vertices are outside; the tables are those so
// far, after a refusal too.
pub fn decide_vertices(
    strip: &[u32],
    p: Poly,
    frame: Frame,
    work: &mut [u32],
    ids: &mut [u32; 32],
    buckets: usize,
    room: usize,
    start: usize,
    tables: &mut Tables,
) -> Result<usize, Reason>
    requires { (p.vertex_at + 3 * p.vertices ≤ length strip.now) × (p.edge_at + 6 * p.edges ≤ length strip.now)
        × (start + p.vertices ≤ room) × TablesReady work.old ids.old buckets room tables.old.vertices start }
    ensures corners { CornersDone work.old work.new ids.old ids.new buckets room tables.old tables.new start
        (corners_in frame.bb_min frame.bb_size (polygon_of strip.now p)) result }
    ensures pushed { IfOk result (λ pushed. pushed ≡ pushed_in frame.bb_min frame.bb_size (polygon_of strip.now p).vertices) }
{
    let mut pushed = 0;
    for i in 0..p.vertices {
        let vertex = vertex_at(strip, p.vertex_at + 3 * i, frame);
        let triple = vertex.triple;
        let e = p.edge_at + 6 * i;
        let a = area_at(strip, e, i, p.edges);
        let b = area_at(strip, e + 3, i, p.edges);
        decide_corner(work, ids, buckets, room, start + i, tables, triple, a, b)?;
        pushed += vertex.outside;
    }
    Ok(pushed)
}
