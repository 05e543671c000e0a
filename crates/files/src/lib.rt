// 15 Open, 16 Close, 19 Delete, 22 Make, 23 Rename, 35 Compute File Size.
#![tactic(auto)]

pub mod close;
pub mod delete;
mod limit;
pub mod make;
pub mod open;
pub mod rename;
pub mod size;
