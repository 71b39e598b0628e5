// The sectors of the pages: a sector's block before its subs', which are leaves or split again. A record that names what stands behind it is stored last, at a
// place that is kept for it.
#![tactic(auto)]

ghost use Rattle.std.specs.Prelude.{◌≡◌, ◌+◌, ◌*◌, ◌^◌, ◌≤◌, ◌<◌, length};
ghost use Rattle.fields.specs.Put.{put};
ghost use Rattle.fields.specs.Rows.{row_bytes};
ghost use Rattle.write_blocks.specs.Layout.{behind};
ghost use Rattle.write_pages.specs.Sectors.{sector_row, sector_address};
ghost use Rattle.write_leaves.specs.Written.{tree_in, TreeRoom, Wrote};

use fields::sizes::SECTOR_SIZE;
use quarters::bounds::Aabb;
use write_blocks::{Layout, address_of};
use write_leaf_items::Points;
use write_leaves::{SectorCursor, put_sector, write_leaf};

// The record of a sector whose subs are laid out from l0, l1, l2 and l3 on.
fn put_node(out: &mut [u8], at: usize, b: Aabb, l0: Layout, l1: Layout, l2: Layout, l3: Layout)
    requires { (behind l0.at 96 < 2 ^ 28) × (behind l1.at 96 < 2 ^ 28) × (behind l2.at 96 < 2 ^ 28) × (behind l3.at 96 < 2 ^ 28) }
    ensures { out.new ≡ put at (row_bytes (sector_row b 0 (sector_address l0.at) (sector_address l1.at) (sector_address l2.at) (sector_address l3.at))) out.old }
{
    let s0 = address_of(l0, SECTOR_SIZE);
    let s1 = address_of(l1, SECTOR_SIZE);
    let s2 = address_of(l2, SECTOR_SIZE);
    let s3 = address_of(l3, SECTOR_SIZE);
    put_sector(out, at, b, 0, s0, s1, s2, s3);
}

// A sector and all below it, `depth` splits down.
pub fn write_sector<'a>(
    out: &mut [u8],
    cursor: SectorCursor,
    b: Aabb,
    depth: u32,
    boxes: &'a [u32],
    leaf_numbers: &'a [u32],
    strip: &'a [u32],
    points: Points,
) -> SectorCursor
    requires depth_bound { (cursor.leaf + 4 ^ depth < 2 ^ 32) × (points.at + 4 * length leaf_numbers.now ≤ length strip.now) }
    requires tree_room { TreeRoom (tree_in boxes.now leaf_numbers.now strip.now points.at depth cursor.leaf b) cursor.layout.at cursor.first }
    ensures { Wrote points.frame.bb_min points.frame.bb_size (tree_in boxes.now leaf_numbers.now strip.now points.at depth cursor.leaf b) (4 ^ depth) cursor result out.old out.new }
{
    if depth == 0 {
        return write_leaf(out, cursor, b, boxes, leaf_numbers, strip, points);
    }
    let d = depth - 1;
    let subs = write_quadtree::boxes::split(b);
    let at = write_blocks::pad(out, cursor.layout, SECTOR_SIZE);
    let l0 = cursor.layout.alloc(SECTOR_SIZE);
    let p0 = SectorCursor {
        layout: l0,
        ..cursor
    };
    let p1 = write_sector(out, p0, subs.s0, d, boxes, leaf_numbers, strip, points);
    let p2 = write_sector(out, p1, subs.s1, d, boxes, leaf_numbers, strip, points);
    let p3 = write_sector(out, p2, subs.s2, d, boxes, leaf_numbers, strip, points);
    let p4 = write_sector(out, p3, subs.s3, d, boxes, leaf_numbers, strip, points);
    put_node(out, at, b, l0, p1.layout, p2.layout, p3.layout);
    p4
}
