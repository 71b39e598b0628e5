// What stands behind the lists, written: sectors, portals and links; and the addresses of all that is laid out.
#![tactic(auto)]

ghost use Rattle.std.specs.Prelude.{◌≡◌, length};
ghost use Rattle.strip.specs.Reading.{head_at};
ghost use Rattle.cell_record.specs.Record.{record_of};
ghost use Rattle.write_pages.specs.Pages.{links, counts, sectors, end_polygons};
ghost use Rattle.write_header.specs.Front.{places_in};
ghost use Rattle.strip.specs.Laid.{cell_at};
ghost use Rattle.write_rest.specs.Rest.{WorkKept, SectorsFilled, RestFilled, places_by, Near};

use cell_record::CellRecord;
use fields::sizes::{LIST_SIZE, PORTAL_SIZE, SECTOR_SIZE};
use strip::Counts;
use strip_parts::{first_point, first_portal};
use write_blocks::Layout;
use write_decide::Decision;
use write_header::Addresses;
use write_leaf_items::Points;
use write_leaves::SectorCursor;

// The layouts behind the header and behind each list.
#[derive(Clone, Copy)]
pub struct ListEnds {
    pub header: Layout,
    pub vertices: Layout,
    pub indices: Layout,
    pub edges: Layout,
    pub polygons: Layout,
}

// The layouts behind sectors, portals and links, and how many points are stored.
#[derive(Clone, Copy)]
pub struct RestEnds {
    pub sectors: Layout,
    pub portals: Layout,
    pub links: Layout,
    pub points: u32,
}

// The sectors, of which `depth` is 2, or 0 where content bit 2 is set.
fn fill_sectors<'a>(
    pages: &mut [u8],
    strip: &'a [u32],
    cell: CellRecord,
    n: Counts,
    work: &'a [u32],
    l: Layout,
) -> SectorCursor
    requires { WorkKept strip.now work.now n × (l.at ≡ end_polygons (counts (cell_at strip.now n)) (sectors (cell_at strip.now n)))
        × (cell ≡ record_of (head_at strip.now 0)) }
    ensures { SectorsFilled (cell_at strip.now n) l pages.old pages.new result }
{
    let places = write_decide::work_places(strip.len(), n);
    let points = Points {
        at: first_point(strip, n),
        frame: cell.frame(),
    };
    let cursor = SectorCursor {
        layout: l,
        leaf: 0,
        first: 0,
    };
    let depth = write_quadtree::boxes::depth_of(cell.content_flags);
    write_sectors::write_sector(
        pages,
        cursor,
        cell.root_box(),
        depth,
        &work[places.boxes..places.leaves],
        &work[places.leaves..places.end],
        strip,
        points,
    )
}

// What stands behind the lists: sectors, portals, links.
pub fn fill_rest<'a>(
    pages: &mut [u8],
    strip: &'a [u32],
    d: Decision,
    work: &'a [u32],
    l: Layout,
) -> RestEnds
    requires { WorkKept strip.now work.now d.counts × (d.links ≡ length (links (cell_at strip.now d.counts)))
        × (l.at ≡ end_polygons (counts (cell_at strip.now d.counts)) (sectors (cell_at strip.now d.counts)))
        × (d.cell ≡ record_of (head_at strip.now 0)) }
    ensures { RestFilled (cell_at strip.now d.counts) l pages.old pages.new result }
{
    let cursor = fill_sectors(pages, strip, d.cell, d.counts, work, l);
    let portals = write_portals::lay_portals(
        pages,
        cursor.layout,
        strip,
        first_portal(strip, d.counts),
        d.counts.portals,
        d.cell.frame(),
    );
    let links = write_portals::lay_links(pages, portals, strip, d.counts.polys, d.links);
    RestEnds {
        sectors: cursor.layout,
        portals,
        links,
        points: cursor.first,
    }
}

// The addresses of what is laid out.
pub fn addresses(d: Decision, lists: ListEnds, rest: RestEnds) -> Addresses
    requires { Near lists rest d.counts.portals d.links }
    ensures { places_in result ≡ places_by lists rest d.counts.portals d.links }
{
    Addresses {
        vertices: write_blocks::address_of(lists.header, LIST_SIZE),
        indices: write_blocks::address_of(lists.vertices, LIST_SIZE),
        edges: write_blocks::address_of(lists.indices, LIST_SIZE),
        polygons: write_blocks::address_of(lists.edges, LIST_SIZE),
        root: write_blocks::address_of(lists.polygons, SECTOR_SIZE),
        portals: write_blocks::address_of(rest.sectors, PORTAL_SIZE * d.counts.portals),
        links: write_blocks::address_of(rest.portals, 2 * d.links),
    }
}
