// With one place fewer somebody is turned away: sequences of calls over the written rules. There is no code here.
#![tactic(auto)]
