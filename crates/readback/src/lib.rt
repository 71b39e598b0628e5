// That written pages are read as the cell they were written of, as laws over the definitions of pages and grammar; there is no code here.
#![tactic(auto)]
