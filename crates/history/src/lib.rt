// Demand 3: what holds after every history of calls, over the written rules. There is no code here.
#![tactic(auto)]
