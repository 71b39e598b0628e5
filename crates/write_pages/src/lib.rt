// The pages of a cell, as definitions (specs/) and laws about them (proofs/). The writer's crates cite them; there is no code here.
#![tactic(auto)]
