// The quadtree over a cell's box: how a box splits itself, the parts of a cell's tree, and the leaf of a point.
#![tactic(auto)]

pub mod boxes;
pub mod subtrees;
