// The directory: names, entries, finding, and where blocks and records lie. Nothing here changes it.
#![tactic(auto)]

pub mod entry;
pub mod find;
pub mod name;
pub mod place;
pub mod run;
