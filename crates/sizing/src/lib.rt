// How large a list has to be so that nobody is turned away: what one call cannot answer, over the written rules. There is no code here.
#![tactic(auto)]
