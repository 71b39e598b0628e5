// A leaf's blocks behind its sector: the ids of the polygons that meet it, its points, its data.
#![tactic(auto)]

ghost use Rattle.std.specs.Prelude.{◌≡◌, cond, [], ◌∷◌, ◌+◌, ◌*◌, ◌^◌, ◌≤◌, ◌<◌, length};
ghost use Rattle.fields.specs.Bytes.{les, cat};
ghost use Rattle.fields.specs.Put.{put};
ghost use Rattle.fields.specs.Rows.{row_bytes};
ghost use Rattle.fields.specs.Sizes.{point_size, sector_data_size};
ghost use Rattle.strip.specs.Reading.{point_at};
ghost use Rattle.strip.specs.Rows.{points_at};
ghost use Rattle.write_blocks.specs.Layout.{behind, end_of};
ghost use Rattle.write_blocks.specs.Laid.{Laid};
ghost use Rattle.write_blocks.specs.Optional.{block_of, size_of};
ghost use Rattle.write_pages.specs.Sectors.{leaf_ids, quarters, data_row, point_row, point_items};
ghost use Rattle.write_leaf_counts.specs.Work.{boxes_in, picked_from};

use fields::sizes::{POINT_SIZE, SECTOR_DATA_SIZE};
use math::vec3::floats_at;
use quantise::short::Frame;
use quarters::bounds::Aabb;
use quarters::quarter::{QuarterBox, quarter_box};
use write_blocks::Layout;
use write_leaf_counts::meets_at;

// The points of a cell: where their records begin in the strip, and the box in which their shorts are measured.
#[derive(Clone, Copy)]
pub struct Points {
    pub at: usize,
    pub frame: Frame,
}

// The block of a leaf's data.
pub fn lay_data(
    out: &mut [u8],
    l: Layout,
    first: u32,
    ids: u32,
    points: u32,
    id_count: u16,
    point_count: u16,
) -> Layout
    requires { behind l.at sector_data_size < 2 ^ 28 }
    ensures { Laid l (row_bytes (data_row first ids points id_count point_count) ∷ []) result out.old out.new }
{
    let at = write_blocks::pad(out, l, SECTOR_DATA_SIZE);
    let words = [
        first,
        0,
        ids,
        0,
        points,
        0,
        fields::pair(id_count, point_count),
        0,
    ];
    stores::put_all(out, at, 4, &words);
    l.alloc(SECTOR_DATA_SIZE)
}

// The numbers of the polygons that meet the leaf with the quarter box q.
fn put_ids(out: &mut [u8], at: usize, boxes: &[u32], q: QuarterBox)
    requires { at + 2 * length (leaf_ids q 0 (boxes_in boxes.now)) < 2 ^ 32 }
    ensures { out.new ≡ put at (les 2 (leaf_ids q 0 (boxes_in boxes.now))) out.old }
{
    let mut p = at;
    for i in 0..boxes.len() / 3 {
        if meets_at(boxes, 3 * i, q) {
            stores::put_le(out, p, 2, i as u64);
            p += 2;
        }
    }
}

// The block of a leaf's n ids, if there are any.
pub fn lay_ids(out: &mut [u8], l: Layout, boxes: &[u32], b: Aabb, n: usize) -> Layout
    requires { (n ≡ length (leaf_ids (quarters b) 0 (boxes_in boxes.now))) × (n ≤ 8192) × (end_of l.at (size_of (2 * n)) < 2 ^ 28) }
    ensures { Laid l (block_of (les 2 (leaf_ids (quarters b) 0 (boxes_in boxes.now)))) result out.old out.new }
{
    if n == 0 {
        return l;
    }
    let q = quarter_box(b.min, b.max);
    let at = write_blocks::pad(out, l, 2 * n);
    put_ids(out, at, boxes, q);
    l.alloc(2 * n)
}

// The point whose record stands at `at`: shorts, angle, kind.
fn put_point(out: &mut [u8], p: usize, strip: &[u32], at: usize, frame: Frame)
    requires { at + 4 ≤ length strip.now }
    ensures { out.new ≡ put p (row_bytes (point_row frame.bb_min frame.bb_size (point_at strip.now at))) out.old }
{
    let q = frame.shorts_of(floats_at(strip, at + 1));
    let bytes = (strip[at] % 65536) as u16;
    let words = [fields::pair(q.x, q.y), fields::pair(q.z, bytes)];
    stores::put_all(out, p, 4, &words);
}

// The points that have the leaf k.
fn put_points<'a>(
    out: &mut [u8],
    at: usize,
    leaf_numbers: &'a [u32],
    strip: &'a [u32],
    points: Points,
    k: u32,
)
    requires { (points.at + 4 * length leaf_numbers.now ≤ length strip.now)
        × (at + point_size * length (picked_from leaf_numbers.now k 0 (points_at strip.now points.at (length leaf_numbers.now))) < 2 ^ 32) }
    ensures { out.new ≡ put at (cat (point_items points.frame.bb_min points.frame.bb_size (picked_from leaf_numbers.now k 0 (points_at strip.now points.at (length leaf_numbers.now))))) out.old }
{
    let mut p = at;
    for (i, leaf) in leaf_numbers.iter().enumerate() {
        if *leaf == k {
            put_point(out, p, strip, points.at + 4 * i, points.frame);
            p += POINT_SIZE;
        }
    }
}

// The block of the n points that have the leaf k, if there are any.
pub fn lay_points<'a>(
    out: &mut [u8],
    l: Layout,
    leaf_numbers: &'a [u32],
    strip: &'a [u32],
    points: Points,
    k: u32,
    n: usize,
) -> Layout
    requires { (points.at + 4 * length leaf_numbers.now ≤ length strip.now)
        × (n ≡ length (picked_from leaf_numbers.now k 0 (points_at strip.now points.at (length leaf_numbers.now)))) × (n ≤ 2048) × (end_of l.at (size_of (point_size * n)) < 2 ^ 28) }
    ensures { Laid l (block_of (cat (point_items points.frame.bb_min points.frame.bb_size (picked_from leaf_numbers.now k 0 (points_at strip.now points.at (length leaf_numbers.now)))))) result out.old out.new }
{
    if n == 0 {
        return l;
    }
    let at = write_blocks::pad(out, l, POINT_SIZE * n);
    put_points(out, at, leaf_numbers, strip, points, k);
    l.alloc(POINT_SIZE * n)
}
