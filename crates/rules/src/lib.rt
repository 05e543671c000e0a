// The values that document 01 names, as the code holds them.
#![tactic(auto)]

pub mod answer;
pub mod code;
pub mod file;
pub mod item;
pub mod kind;
pub mod list;
pub mod routine;
pub mod size;
pub mod spot;
pub mod tests;
