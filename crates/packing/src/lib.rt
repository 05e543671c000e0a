// Packing a book, and books moved by others: what is asked of them and what holds, over the written rules. There is no code here.
#![tactic(auto)]
