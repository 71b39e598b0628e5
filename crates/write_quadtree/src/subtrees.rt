// A part of a cell's tree, and its four subs: what the recursions over the tree go by.
ghost use Rattle.std.specs.Prelude.{◌≡◌};
ghost use Rattle.write_quadtree.specs.Subtrees.{Numbered, divided};

use super::boxes::{leaf_count, split};
use quarters::bounds::Aabb;

// A box that splits `depth` times, whose leaves are numbered from `leaf` on.
#[derive(Clone, Copy)]
pub struct Subtree {
    pub b: Aabb,
    pub depth: u32,
    pub leaf: u32,
}

// The four subs of a box that splits, in writing order.
#[derive(Clone, Copy)]
pub struct Subtrees {
    pub s0: Subtree,
    pub s1: Subtree,
    pub s2: Subtree,
    pub s3: Subtree,
}

pub fn divide(t: Subtree) -> Subtrees
    requires { (t.depth ≡ 0 → ⊥) × Numbered t }
    ensures { result ≡ divided t }
{
    let depth = t.depth - 1;
    let width = leaf_count(depth);
    let subs = split(t.b);
    Subtrees {
        s0: Subtree {
            b: subs.s0,
            depth,
            leaf: t.leaf,
        },
        s1: Subtree {
            b: subs.s1,
            depth,
            leaf: t.leaf + width,
        },
        s2: Subtree {
            b: subs.s2,
            depth,
            leaf: t.leaf + 2 * width,
        },
        s3: Subtree {
            b: subs.s3,
            depth,
            leaf: t.leaf + 3 * width,
        },
    }
}
