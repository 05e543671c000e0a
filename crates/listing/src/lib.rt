// A clerk's listing by 17 and 18: what each call answers and leaves, and that together they show every entry that matches, over the written rules. There is no code here.
#![tactic(auto)]
