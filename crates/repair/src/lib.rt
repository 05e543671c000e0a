// Salvage of a damaged image: what it leaves, and what is true of it, over the written rules. There is no code here.
#![tactic(auto)]
