// That areas touch exactly where their cells share a side of the grid, as laws over the definitions of both; there is no code here.
#![tactic(auto)]
