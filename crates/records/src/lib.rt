// 33 Read Random, 34 and 40 Write Random, 41 Test and Write, 46 Get Disk Free Space.
#![tactic(auto)]

pub mod may;
pub mod read;
pub mod space;
pub mod test;
mod there;
pub mod write;
