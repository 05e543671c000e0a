// Two images compared: whether they hold the same book.
#![tactic(auto)]

mod book;
pub mod difference;
mod held;
pub mod same;
