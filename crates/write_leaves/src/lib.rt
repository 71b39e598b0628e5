// A leaf of the pages: its sector's block, then its ids, points and data. The sector's record names what stands behind it, so it is stored last, at a place
// that is kept for it.
#![tactic(auto)]

ghost use Rattle.std.specs.Prelude.{◌≡◌, ◌+◌, ◌*◌, ◌^◌, ◌≤◌, ◌<◌, length};
ghost use Rattle.fields.specs.Put.{put};
ghost use Rattle.fields.specs.Rows.{row_bytes};
ghost use Rattle.write_pages.specs.Sectors.{sector_row};
ghost use Rattle.write_leaves.specs.Written.{tree_in, TreeRoom, Wrote};

use fields::sizes::{POINT_SIZE, SECTOR_DATA_SIZE, SECTOR_SIZE};
use math::num::bits_of_float;
use quarters::bounds::Aabb;
use quarters::quarter::quarter_box;
use write_blocks::{Layout, address_of};
use write_leaf_counts::{count_points, leaf_ids, quarter_pair};
use write_leaf_items::{Points, lay_data, lay_ids, lay_points};

const NAN: u32 = 0x7FC0_0000;

// Where the writer stands: what is laid out so far, the next leaf's number, the next stored point's number.
#[derive(Clone, Copy)]
pub struct SectorCursor {
    pub layout: Layout,
    pub leaf: u32,
    pub first: u32,
}

// A sector's record.
pub fn put_sector(out: &mut [u8], at: usize, b: Aabb, data: u32, s0: u32, s1: u32, s2: u32, s3: u32)
    ensures { out.new ≡ put at (row_bytes (sector_row b «data» s0 s1 s2 s3)) out.old }
{
    let q = quarter_box(b.min, b.max);
    let words = [
        bits_of_float(b.min.x),
        bits_of_float(b.min.y),
        bits_of_float(b.min.z),
        NAN,
        bits_of_float(b.max.x),
        bits_of_float(b.max.y),
        bits_of_float(b.max.z),
        NAN,
        quarter_pair(q.x_min, q.x_max),
        quarter_pair(q.y_min, q.y_max),
        quarter_pair(q.z_min, q.z_max),
        data,
        0,
        s0,
        0,
        s1,
        0,
        s2,
        0,
        s3,
        0,
        0,
        0,
        0,
    ];
    stores::put_all(out, at, 4, &words);
}

// A leaf: its sector, ids, points, data.
pub fn write_leaf<'a>(
    out: &mut [u8],
    cursor: SectorCursor,
    b: Aabb,
    boxes: &'a [u32],
    leaf_numbers: &'a [u32],
    strip: &'a [u32],
    points: Points,
) -> SectorCursor
    requires leaf_bound { (cursor.leaf + 1 < 2 ^ 32) × (points.at + 4 * length leaf_numbers.now ≤ length strip.now) }
    requires tree_room { TreeRoom (tree_in boxes.now leaf_numbers.now strip.now points.at 0 cursor.leaf b) cursor.layout.at cursor.first }
    ensures { Wrote points.frame.bb_min points.frame.bb_size (tree_in boxes.now leaf_numbers.now strip.now points.at 0 cursor.leaf b) 1 cursor result out.old out.new }
{
    let m = leaf_ids(boxes, b);
    let n = count_points(leaf_numbers, cursor.leaf);
    let at = write_blocks::pad(out, cursor.layout, SECTOR_SIZE);
    let l1 = cursor.layout.alloc(SECTOR_SIZE);
    let l2 = lay_ids(out, l1, boxes, b, m);
    let l3 = lay_points(out, l2, leaf_numbers, strip, points, cursor.leaf, n);
    let ids_at = address_of(l1, 2 * m);
    let points_at = address_of(l2, POINT_SIZE * n);
    let l4 = lay_data(out, l3, cursor.first, ids_at, points_at, m as u16, n as u16);
    let data_at = address_of(l3, SECTOR_DATA_SIZE);
    put_sector(out, at, b, data_at, 0, 0, 0, 0);
    SectorCursor {
        layout: l4,
        leaf: cursor.leaf + 1,
        first: cursor.first + n as u32,
    }
}
