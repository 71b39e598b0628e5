// The cell grammar: which strip two sections derive. Definitions stand in specs/, theorems in proofs/. No code stands here: the grammar is
// apart from any reader.
#![tactic(auto)]
