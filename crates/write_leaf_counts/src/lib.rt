// What stands in a leaf, by the words that the writer's first pass leaves: three to a polygon's quarter box, one to a point's leaf. `write_leaf_checks` has the limits.
#![tactic(auto)]

ghost use Rattle.std.specs.Prelude.{◌≡◌, cond, ◌+◌, ◌-◌, ◌*◌, ◌/◌, ◌%◌, ◌≤◌, ◌<◌, length};
ghost use Rattle.quarters.specs.Quarter.{bits16};
ghost use Rattle.quarters.specs.Int16.{int16};
ghost use Rattle.write_pages.specs.Sectors.{axis_meets, meets, leaf_ids, quarters};
ghost use Rattle.write_leaf_counts.specs.Work.{box_at, boxes_in, count_in};

use quarters::bounds::Aabb;
use quarters::quarter::{QuarterBox, bits16_of, i16_of, quarter_box};

// One axis of a quarter box as a word: min below, max above.
pub fn quarter_pair(min: i16, max: i16) -> u32
    ensures word { result ≡ bits16 min + 65536 * bits16 max }
    ensures bound { bits16 min < 65536 }
{
    bits16_of(min) + 65536 * bits16_of(max)
}

// Whether a leaf's range meets a polygon's, which is a word with its min below and its max above.
fn axis_meets(leaf_min: i16, leaf_max: i16, sides: u32) -> bool
    ensures { result ≡ axis_meets leaf_min leaf_max (int16 (sides % 65536)) (int16 (sides / 65536)) }
{
    let min = i16_of(sides);
    let max = i16_of(sides / 65536);
    leaf_min <= max && min <= leaf_max
}

// Whether the polygon whose quarter box stands at `at` meets the leaf with the quarter box q.
pub fn meets_at(boxes: &[u32], at: usize, q: QuarterBox) -> bool
    requires { at + 3 ≤ length boxes.now }
    ensures { result ≡ meets q (box_at boxes.now at) }
{
    axis_meets(q.x_min, q.x_max, boxes[at]) && axis_meets(q.y_min, q.y_max, boxes[at + 1])
}

// How many polygons meet the leaf with the quarter box q.
fn count_ids(boxes: &[u32], q: QuarterBox) -> usize
    ensures { result ≡ length (leaf_ids q 0 (boxes_in boxes.now)) }
{
    let mut n = 0;
    for i in 0..boxes.len() / 3 {
        n += usize::from(meets_at(boxes, 3 * i, q));
    }
    n
}

// How many polygons meet the leaf with this box. Where there are none, its sides need no rounding.
pub fn leaf_ids(boxes: &[u32], b: Aabb) -> usize
    ensures { result ≡ length (leaf_ids (quarters b) 0 (boxes_in boxes.now)) }
{
    if boxes.len() < 3 {
        return 0;
    }
    count_ids(boxes, quarter_box(b.min, b.max))
}

// How many points of a part have the leaf k: few enough for 32 bits, in which several are counted at a time.
fn count_part(part: &[u32], k: u32) -> u32
    requires { length part.now ≤ 65536 }
    ensures { result ≡ count_in part.now k 0 (length part.now) }
{
    let mut n = 0;
    for leaf in part {
        n += u32::from(*leaf == k);
    }
    n
}

// How many points have the leaf k.
pub fn count_points(leaf_numbers: &[u32], k: u32) -> usize
    ensures { result ≡ count_in leaf_numbers.now k 0 (length leaf_numbers.now) }
{
    let mut n = 0;
    for part in leaf_numbers.chunks(65536) {
        n += count_part(part, k) as usize;
    }
    n
}
