// 33, 34 and 40 over a run of records: the file and its open are found once, an extent once for all its records.
#![tactic(auto)]

pub mod read;
pub mod refusal;
pub mod write;
