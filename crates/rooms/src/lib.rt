// How much memory a caller has to lend, and what of it stays the caller's own, as laws over what the writer and the reader decide and promise; there is no code here.
#![tactic(auto)]
