// Packing a book as a host asks for it, with its refusals.
#![tactic(auto)]

pub mod call;
