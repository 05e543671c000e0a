// Every change to an image and to its vector, each step of an effect a function of its own.
#![tactic(auto)]

pub mod file;
pub mod record;
pub mod spot;
pub mod vector;
