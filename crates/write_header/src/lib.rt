// The header of the pages. Nothing here refuses: what a caller lends was checked before.
#![tactic(auto)]

ghost use Rattle.std.specs.Prelude.{◌≡◌, length, take};
ghost use Rattle.fields.specs.Bytes.{les};
ghost use Rattle.fields.specs.Put.{put};
ghost use Rattle.fields.specs.Rows.{row_bytes};
ghost use Rattle.cell_record.specs.Record.{head_by};
ghost use Rattle.areas.specs.Tables.{area_ids};
ghost use Rattle.write_pages.specs.Pages.{padded, header_first, header_last, header_bytes};
ghost use Rattle.write_header.specs.Front.{places_in, counts_in};

use areas::Areas;
use cell_record::CellRecord;
use math::num::bits_of_float;

// Addresses in the pages: of the four lists, the root, portals and links. 0 where there is no block.
#[derive(Clone, Copy)]
pub struct Addresses {
    pub vertices: u32,
    pub indices: u32,
    pub edges: u32,
    pub polygons: u32,
    pub root: u32,
    pub portals: u32,
    pub links: u32,
}

// How many there are of each, and the bytes that count for the total.
#[derive(Clone, Copy)]
pub struct Totals {
    pub vertices: u32,
    pub indices: u32,
    pub areas: u32,
    pub polygons: u32,
    pub points: u32,
    pub portals: u32,
    pub links: u32,
    pub total: u32,
}

const ONE: u32 = 0x3F80_0000;

const NAN: u32 = 0x7FC0_0000;

// The header before the areas, 0x98 bytes. The cell's record holds what is its own.
fn put_first(out: &mut [u8], cell: CellRecord, a: Addresses, n: Totals)
    ensures { out.new ≡ put 0 (row_bytes (header_first (head_by cell) (places_in a) (counts_in n))) out.old }
{
    let words = [
        cell.vft,
        1,
        0,
        0,
        cell.content_flags,
        0x10011,
        0,
        0,
        ONE,
        0,
        0,
        NAN,
        0,
        ONE,
        0,
        NAN,
        0,
        0,
        ONE,
        NAN,
        0,
        0,
        0,
        NAN, // not the diagonal's 1
        bits_of_float(cell.bb_size.x),
        bits_of_float(cell.bb_size.y),
        bits_of_float(cell.bb_size.z),
        0x7F80_0001,
        a.vertices,
        0,
        0,
        0,
        a.indices,
        0,
        a.edges,
        0,
        n.indices,
        n.areas,
    ];
    stores::put_all(out, 0, 4, &words);
}

// The 32 areas at 0x98: zeros behind those that there are.
fn put_areas(out: &mut [u8], areas: Areas)
    ensures { out.new ≡ put 152 (les 4 (padded 32 (area_ids areas))) out.old }
{
    let n = areas.len.min(32);
    stores::put_all(out, 152, 4, &areas.ids[..n]);
    stores::put_le(out, 152 + 4 * n, 128 - 4 * n, 0);
}

// The header behind the areas, from 0x118 on.
fn put_last(out: &mut [u8], cell: CellRecord, a: Addresses, n: Totals)
    ensures { out.new ≡ put 280 (row_bytes (header_last (head_by cell) (places_in a) (counts_in n))) out.old }
{
    let words = [
        a.polygons,
        0,
        a.root,
        0,
        a.portals,
        0,
        a.links,
        0,
        n.vertices,
        n.polygons,
        cell.area_id,
        n.total,
        n.points,
        n.portals,
        n.links,
        0,
        0,
        0,
        cell.version_unk2,
        0,
        0,
        0,
    ];
    stores::put_all(out, 280, 4, &words);
}

// The header, 368 bytes at 0, of a cell with this record. It is stored last, when all addresses are known.
pub fn put_header(out: &mut [u8], cell: CellRecord, a: Addresses, n: Totals, areas: Areas)
    ensures { out.new ≡ put 0 (header_bytes (head_by cell) (places_in a) (counts_in n) (area_ids areas)) out.old }
{
    put_first(out, cell, a, n);
    put_areas(out, areas);
    put_last(out, cell, a, n);
}
