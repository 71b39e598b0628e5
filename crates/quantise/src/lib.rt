// Coordinates in pages: positions as short numbers of their box.
#![tactic(auto)]

pub mod short;
