// Boxes in quarters of a unit: sides rounded outwards to 16 bits, and the box around vertices.
#![tactic(auto)]

pub mod bounds;
pub mod quarter;
