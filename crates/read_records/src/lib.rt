// The reader's second pass over the records of one length, the cell's own and portals, and the stores that its other parts make too. Nothing here refuses.
#![tactic(auto)]

pub mod cell;
pub mod portal;
pub mod words;
