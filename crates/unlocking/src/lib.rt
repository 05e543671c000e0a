// Unlock calls in either order, one repeated, one after its Lock, over the written rules. There is no code here.
#![tactic(auto)]
