// The sector tree of the pages, walked, checked and counted: the first pass.
#![tactic(auto)]

ghost use Rattle.std.specs.Prelude.{◌≡◌, [], ◌∷◌, ◌+◌, ◌*◌, ◌^◌, ◌<◌};
ghost use Rattle.fields.specs.Bytes.{le_at};
ghost use Rattle.strip.specs.Outcome.{shown, paper};
ghost use Rattle.read_grammar.specs.Trees.{subs_to};
ghost use Rattle.read_sectors.specs.Sector.{good_data, points_of};
ghost use Rattle.read_sectors.specs.Walk.{walk};
ghost use Rattle.read_sectors.specs.Answer.{tree_outcome, reason_paper, found_of, Few, Small, WalkCounted};

use fields::sizes::{POINT_SIZE, SECTOR_DATA_SIZE, SECTOR_SIZE};
use fields::{u16_le, u64_le};
use res_reader::ResReader;
use strip::{Reason, Refusal};

// A sector reached twice counts twice, and so do its points.
#[derive(Clone, Copy)]
pub struct Tree {
    pub sectors: usize,
    pub points: usize,
}

// Where a walk stands: the visits left, and the points counted so far.
#[derive(Clone, Copy)]
struct Walk {
    left: usize,
    points: usize,
}

// How many points a sector has, where its data and points are good or absent: by its data's address, 0x2C, and the data's count and address of
// points, 0x1A and 0x10.
fn find_points<'a>(reader: &ResReader<'a>, sector: &'a [u8]) -> Result<usize, Reason>
    ensures answer { reason_paper result ≡ found_of (good_data reader.now.system.now reader.now.graphics.now sector.now) (points_of reader.now.system.now reader.now.graphics.now sector.now) }
    ensures bound { Few result }
{
    let va = u64_le(sector, 0x2C);
    if va == 0 {
        return Ok(0);
    }
    let data = reader.resolve(va, SECTOR_DATA_SIZE);
    if data.len() < SECTOR_DATA_SIZE {
        return Err(Reason::BadSectorData);
    }
    let n = usize::from(u16_le(data, 0x1A));
    if n == 0 {
        return Ok(0);
    }
    let points = reader.resolve(u64_le(data, 0x10), POINT_SIZE * n);
    if points.len() < POINT_SIZE * n {
        return Err(Reason::BadSectorData);
    }
    Ok(n)
}

// The address of a sector's sub i.
pub fn sub_at(sector: &[u8], i: usize) -> u64
    requires { i < 4 }
    ensures { result ≡ le_at 8 sector.now (0x34 + 8 * i) }
{
    u64_le(sector, 0x34 + 8 * i)
}

// The sector at va and all below it. The walk, which may be 4,096 deep, has the sections by reference: by value each level would hold a copy of them.
#[cycle(visit_sector_visit_subs)]
fn visit_sector<'a>(reader: &ResReader<'a>, va: u64, from: Walk) -> Result<Walk, Reason>
    requires { from.points + 65535 * from.left < 2 ^ 64 }
    ensures { WalkCounted (walk reader.now.system.now reader.now.graphics.now from.left (va ∷ [])) from result }
{
    if from.left == 0 {
        return Err(Reason::ManySectors);
    }
    let sector = reader.resolve(va, SECTOR_SIZE);
    if sector.len() < SECTOR_SIZE {
        return Err(Reason::BadSector);
    }
    let n = find_points(reader, sector)?;
    let on = Walk {
        left: from.left - 1,
        points: from.points + n,
    };
    visit_subs(reader, sector, on)
}

// The trees at a sector's four subs, the last sub first.
#[cycle(visit_sector_visit_subs)]
fn visit_subs<'a>(reader: &ResReader<'a>, sector: &'a [u8], start: Walk) -> Result<Walk, Reason>
    requires { start.points + 65535 * start.left < 2 ^ 64 }
    ensures { WalkCounted (walk reader.now.system.now reader.now.graphics.now start.left (subs_to sector.now 4)) start result }
{
    let mut at = start;
    for i in (0..4).rev() {
        let sub = sub_at(sector, i);
        if sub != 0 {
            at = visit_sector(reader, sub, at)?;
        }
    }
    Ok(at)
}

// The tree at root, of 4,096 sectors at most: how many sectors and points it has, or the first fault in preorder.
pub fn read_sector_tree<'a>(reader: ResReader<'a>, root: u64) -> Result<Tree, Refusal>
    ensures answer { paper result ≡ shown (tree_outcome reader.entry.system.now reader.entry.graphics.now root) }
    ensures bound { Small result }
{
    if root == 0 {
        return Err(Refusal::from(Reason::NoTree));
    }
    let start = Walk {
        left: 4096,
        points: 0,
    };
    let end = visit_sector(&reader, root, start)?;
    Ok(Tree {
        sectors: 4096 - end.left,
        points: end.points,
    })
}
