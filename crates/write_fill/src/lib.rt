// The pages of a planned strip, filled: the lists, what stands behind them, and the header, stored last.
#![tactic(auto)]

ghost use Rattle.std.specs.Prelude.{◌≡◌, length};
ghost use Rattle.areas.specs.Tables.{area_ids};
ghost use Rattle.write_pages.specs.Sectors.{byte_count};
ghost use Rattle.write_pages.specs.PointCounts.{stored_count};
ghost use Rattle.write_pages.specs.Pages.{sectors};
ghost use Rattle.write_header.specs.Front.{counts_in};
ghost use Rattle.strip.specs.Laid.{cell_at};
ghost use Rattle.write_plan.specs.Ready.{Ready};
ghost use Rattle.write_fill.specs.Filled.{Left, ListsFilled, counts_by, Few, Filled};

use areas::Areas;
use fields::sizes::{EDGE_SIZE, INDEX_SIZE, NAVMESH_SIZE, POLY_SIZE, PORTAL_SIZE, VERTEX_SIZE};
use write_blocks::Layout;
use write_decide::Decision;
use write_header::Totals;
use write_rest::ListEnds;

// The four lists, behind the place that is kept for the header. Edges are made in work, in the words of vertices that are laid out by then.
fn fill_lists(pages: &mut [u8], strip: &[u32], d: Decision, work: &mut [u32]) -> ListEnds
    requires { Ready strip.now work.old d }
    ensures pages { ListsFilled (cell_at strip.now d.counts) pages.old pages.new result }
    ensures work { Left strip.now d.counts work.old work.new }
{
    let places = write_decide::work_places(strip.len(), d.counts);
    let n = d.counts.polys;
    let corners = d.corners;
    let header = Layout::new().alloc(NAVMESH_SIZE);
    let vertices = write_lists::lay_vertices(pages, header, work, places.vertices, d.vertices);
    let indices = write_lists::lay_indices(pages, vertices, work, places.indices, corners);
    let edges = write_lists::lay_edges(
        pages,
        indices,
        strip,
        n,
        corners,
        d.areas,
        work,
        places.vertices,
    );
    let polygons = write_lists::lay_polygons(
        pages,
        edges,
        strip,
        d.cell.area_id,
        n,
        &work[places.boxes..places.leaves],
    );
    ListEnds {
        header,
        vertices,
        indices,
        edges,
        polygons,
    }
}

// How many areas there are. A length above 32 counts as 32.
fn area_count(areas: Areas) -> u32
    ensures { result ≡ length (area_ids areas) }
{
    areas.len.min(32) as u32
}

// How many there are of each; `bytes` are those of the sectors.
fn totals(d: Decision, points: u32, bytes: u32) -> Totals
    requires { Few d bytes }
    ensures { counts_in result ≡ counts_by d points bytes }
{
    let items = VERTEX_SIZE * d.vertices
        + (INDEX_SIZE + EDGE_SIZE) * d.corners
        + POLY_SIZE * d.counts.polys
        + PORTAL_SIZE * d.counts.portals;
    Totals {
        vertices: d.vertices as u32,
        indices: d.corners as u32,
        areas: area_count(d.areas),
        polygons: d.counts.polys as u32,
        points,
        portals: d.counts.portals as u32,
        links: d.links as u32,
        total: bytes + items as u32,
    }
}

// The pages of a planned strip, whose sectors have so many bytes. The header is stored last, when all addresses are known. The answer is how many
// points are stored.
pub fn fill(strip: &[u32], d: Decision, bytes: u32, work: &mut [u32], pages: &mut [u8]) -> u32
    requires { Ready strip.now work.old d × (bytes ≡ byte_count (sectors (cell_at strip.now d.counts))) }
    ensures pages { Filled strip.now d.counts work.old work.new pages.old pages.new }
    ensures points { result ≡ stored_count (cell_at strip.now d.counts) }
{
    let lists = fill_lists(pages, strip, d, work);
    let rest = write_rest::fill_rest(pages, strip, d, work, lists.polygons);
    let a = write_rest::addresses(d, lists, rest);
    let n = totals(d, rest.points, bytes);
    write_header::put_header(pages, d.cell, a, n, d.areas);
    rest.points
}
