// Packing a book into a second buffer.
#![tactic(auto)]

mod blocks;
mod entries;
pub mod pack;
