// 17 Search First, 18 Search Next.
#![tactic(auto)]

mod pattern;
pub mod search;
