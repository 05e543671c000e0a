// Document 01's session over the written rules. There is no code here.
#![tactic(auto)]
