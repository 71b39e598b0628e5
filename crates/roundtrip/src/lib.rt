// That a saved cell opens again with what it has to keep, as laws over what the writer and the reader decide; there is no code here.
#![tactic(auto)]
