// The plain engine: single calls one after another.
#![tactic(auto)]

pub mod singly;
