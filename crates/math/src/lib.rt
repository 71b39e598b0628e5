// Floats and vectors of three floats. Nothing here is undefined, at a NaN or out of range.
#![tactic(auto)]

pub mod num;
pub mod vec3;
