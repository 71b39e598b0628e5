// Deciding: every check of a cell's pages but the last, in the scope document's order, and how many words the cell makes; and where things are in the
// pages, which filling looks up again.
#![tactic(auto)]

ghost use Rattle.strip.specs.Outcome.{paper};
ghost use Rattle.std.specs.Prelude.{◌≡◌, List, ℕ, ◌*◌, ◌^◌, ◌≤◌, ◌<◌, length};
ghost use Rattle.fields.specs.Bytes.{le_at};
ghost use Rattle.strip.specs.Box.{finite_vec, finite_box};
ghost use Rattle.read_grammar.specs.Derives.{vec_of, head_of};
ghost use Rattle.read_decide.specs.Reading as Reading;
ghost use Rattle.read_decide.specs.Reading.{Reading, portals, on_head, after_walk, read_cell};
ghost use Rattle.read_decide.specs.Deciding.{answer_of, passed_then, addresses, link_bytes, HeaderRoot, ReadyFor, ListsChecked};

use fields::sizes::{NAVMESH_SIZE, PORTAL_SIZE, SECTOR_SIZE};
use fields::{u32_le, u64_le};
use read_list_set::read_lists;
use read_lists::list_table;
use read_polygon_tally::check_polygons;
use read_sectors::{Tree, read_sector_tree};
use res_reader::ResReader;
use resource::SYSTEM_BASE;
use strip::{Reason, Refusal};
use strip_parts::finite_vec;

// How much an accepted cell has: words of the strip, polygons, portals, points, and the sectors visited.
#[derive(Clone, Copy, PartialEq, Eq)]
pub struct Parsed {
    pub words: usize,
    pub polys: usize,
    pub portals: usize,
    pub points: usize,
    pub sectors: usize,
}

// The addresses of the four lists.
#[derive(Clone, Copy)]
pub struct ListAddresses {
    pub vertices: u64,
    pub indices: u64,
    pub edges: u64,
    pub polygons: u64,
}

// Where things are in the pages. What isn't good is empty. Header and root are looked up once, and lent to what needs them.
pub fn header_of<'a>(reader: ResReader<'a>) -> &'a [u8]
    ensures { result.now ≡ Reading.header reader.entry.system.now reader.entry.graphics.now }
{
    reader.resolve(SYSTEM_BASE, NAVMESH_SIZE)
}

pub fn root_of<'a>(reader: ResReader<'a>, header: &'a [u8]) -> &'a [u8]
    requires { header.now ≡ Reading.header reader.system.now reader.graphics.now }
    ensures { result.now ≡ Reading.root reader.entry.system.now reader.entry.graphics.now }
{
    reader.resolve(u64_le(header, 0x120), SECTOR_SIZE)
}

pub fn list_addresses(header: &[u8]) -> ListAddresses
    ensures { result ≡ addresses header.now }
{
    ListAddresses {
        vertices: u64_le(header, 0x70),
        indices: u64_le(header, 0x80),
        edges: u64_le(header, 0x88),
        polygons: u64_le(header, 0x118),
    }
}

pub fn portal_count(header: &[u8]) -> usize
    ensures count { result ≡ le_at 4 header.now 0x14C }
    ensures bound { result < 2 ^ 32 }
{
    u32_le(header, 0x14C) as usize
}

pub fn portals_of<'a>(reader: ResReader<'a>, header: &'a [u8]) -> &'a [u8]
    requires { header.now ≡ Reading.header reader.system.now reader.graphics.now }
    ensures { result.now ≡ portals reader.entry.system.now reader.entry.graphics.now }
{
    let address = u64_le(header, 0x128);
    reader.resolve(address, PORTAL_SIZE * portal_count(header))
}

pub fn links_of<'a>(reader: ResReader<'a>, header: &'a [u8]) -> &'a [u8]
    requires { header.now ≡ Reading.header reader.system.now reader.graphics.now }
    ensures { result.now ≡ link_bytes reader.entry.system.now reader.entry.graphics.now }
{
    let address = u64_le(header, 0x130);
    let count = u32_le(header, 0x150) as usize;
    reader.resolve(address, 2 * count)
}

// Deciding.

// Whether the three floats of b from off on are finite.
fn finite_at(b: &[u8], off: usize) -> bool
    requires { off ≤ 65536 }
    ensures { result ≡ finite_vec (vec_of b.now off) }
{
    finite_vec(u32_le(b, off), u32_le(b, off + 4), u32_le(b, off + 8))
}

fn finite_box<'a>(header: &'a [u8], root: &'a [u8]) -> bool
    ensures { result ≡ finite_box (head_of header.now root.now) }
{
    finite_at(root, 0) && finite_at(root, 16) && finite_at(header, 0x60)
}

// Header, root and box, in whichever sections they were looked up.
fn check_head<'a>(header: &'a [u8], root: &'a [u8]) -> Result<(), Reason>
    ensures { (system graphics : List ℕ) → HeaderRoot system graphics header.now root.now → (rest : Reading) → on_head system graphics rest ≡ passed_then result rest }
{
    if header.len() < NAVMESH_SIZE {
        return Err(Reason::NoHeader);
    }
    if u64_le(header, 0x120) == 0 {
        return Err(Reason::NoTree);
    }
    if root.len() < SECTOR_SIZE {
        return Err(Reason::BadSector);
    }
    if !finite_box(header, root) {
        return Err(Reason::PagesBoxNotFinite);
    }
    Ok(())
}

// The four lists and their polygons: how many words these make, and how many they are.
fn check_lists<'a>(reader: ResReader<'a>, header: &'a [u8]) -> Result<(usize, usize), Refusal>
    requires { header.now ≡ Reading.header reader.system.now reader.graphics.now }
    ensures { ListsChecked reader.entry.system.now reader.entry.graphics.now result }
{
    let a = list_addresses(header);
    let links = links_of(reader, header);
    let (limits, polys) = read_lists(
        reader,
        a.vertices,
        a.indices,
        a.edges,
        a.polygons,
        links.len() / 2,
    )?;
    let indices = list_table(reader, a.indices);
    let polygons = list_table(reader, a.polygons);
    let words = check_polygons(reader, polygons, polys, limits, indices)?;
    Ok((words, polys))
}

// What follows the walk: lists, polygons, portals. The cell's record has 14 words, a portal's 11, a point's 4, the end 1.
fn decide_rest<'a>(reader: ResReader<'a>, header: &'a [u8], tree: Tree) -> Result<Parsed, Refusal>
    requires { (header.now ≡ Reading.header reader.system.now reader.graphics.now) × (tree.points ≤ 65535 * 4096) }
    ensures answer { (points : List (List ℕ)) → length points ≡ tree.points → paper result ≡ answer_of (after_walk reader.entry.system.now reader.entry.graphics.now points tree.sectors) }
    ensures ready { ReadyFor reader.entry.system.now reader.entry.graphics.now result }
{
    let (words, polys) = check_lists(reader, header)?;
    let portals = portal_count(header);
    if portals_of(reader, header).len() < PORTAL_SIZE * portals {
        return Err(Refusal::from(Reason::BadPortals));
    }
    Ok(Parsed {
        words: 14 + words + 11 * portals + 4 * tree.points + 1,
        polys,
        portals,
        points: tree.points,
        sectors: tree.sectors,
    })
}

// All checks but the last: whether the strip is long enough.
pub fn decide<'a>(
    reader: ResReader<'a>,
    header: &'a [u8],
    root: &'a [u8],
) -> Result<Parsed, Refusal>
    requires { HeaderRoot reader.system.now reader.graphics.now header.now root.now }
    ensures answer { paper result ≡ answer_of (read_cell reader.entry.system.now reader.entry.graphics.now) }
    ensures ready { ReadyFor reader.entry.system.now reader.entry.graphics.now result }
{
    check_head(header, root)?;
    let tree = read_sector_tree(reader, u64_le(header, 0x120))?;
    decide_rest(reader, header, tree)
}
