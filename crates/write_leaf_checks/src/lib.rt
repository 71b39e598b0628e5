// Refusals 17 and 18: no leaf has more polygons or points than it can name.
#![tactic(auto)]

ghost use Rattle.std.specs.Prelude.{◌≡◌, List, ◌≤◌, length};
ghost use Rattle.strip.specs.Cell.{NavPoint};
ghost use Rattle.write_pages.specs.Sectors.{leaf_counts};
ghost use Rattle.write_quadtree.specs.Subtrees.{Numbered};
ghost use Rattle.write_leaf_counts.specs.Work.{tree_by};
ghost use Rattle.write_leaf_checks.specs.FirstRefused.{FirstRefused};

use quarters::bounds::Aabb;
use strip::{Reason, Refusal};
use write_leaf_counts::{count_points, leaf_ids};
use write_quadtree::subtrees::{Subtree, divide};

// 17 and 18 of the leaf with this box and this number, which is the place.
fn check_leaf<'a>(
    b: Aabb,
    leaf: u32,
    boxes: &'a [u32],
    leaf_numbers: &'a [u32],
) -> Result<(), Refusal>
    ensures { (ts : List NavPoint) → length ts ≡ length leaf_numbers.now → FirstRefused result leaf (leaf_counts (tree_by boxes.now leaf_numbers.now ts 0 leaf b)) }
{
    let place = leaf as usize;
    if 8192 < leaf_ids(boxes, b) {
        return Err(Refusal {
            reason: Reason::ManyPolygonsInLeaf,
            place,
        });
    }
    if 2048 < count_points(leaf_numbers, leaf) {
        return Err(Refusal {
            reason: Reason::ManyPointsInLeaf,
            place,
        });
    }
    Ok(())
}

// The same of all leaves of a part of the tree.
fn check_from<'a>(t: Subtree, boxes: &'a [u32], leaf_numbers: &'a [u32]) -> Result<(), Refusal>
    requires { Numbered t }
    ensures { (ts : List NavPoint) → length ts ≡ length leaf_numbers.now → FirstRefused result t.leaf (leaf_counts (tree_by boxes.now leaf_numbers.now ts t.depth t.leaf t.b)) }
{
    if t.depth == 0 {
        return check_leaf(t.b, t.leaf, boxes, leaf_numbers);
    }
    let subs = divide(t);
    check_from(subs.s0, boxes, leaf_numbers)?;
    check_from(subs.s1, boxes, leaf_numbers)?;
    check_from(subs.s2, boxes, leaf_numbers)?;
    check_from(subs.s3, boxes, leaf_numbers)
}

// 17 and 18 of the leaves of a cell with this depth and this box, in writing order. Where the cell has no more than fits in a leaf, no leaf is looked at.
pub fn check_leaves<'a>(
    depth: u32,
    b: Aabb,
    boxes: &'a [u32],
    leaf_numbers: &'a [u32],
) -> Result<(), Refusal>
    requires { depth ≤ 2 }
    ensures { (ts : List NavPoint) → length ts ≡ length leaf_numbers.now → FirstRefused result 0 (leaf_counts (tree_by boxes.now leaf_numbers.now ts depth 0 b)) }
{
    if boxes.len() <= 24576 && leaf_numbers.len() <= 2048 {
        return Ok(());
    }
    check_from(Subtree { b, depth, leaf: 0 }, boxes, leaf_numbers)
}
