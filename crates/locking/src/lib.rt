// 42 Lock Record, 43 Unlock Record, 143 Terminate.
#![tactic(auto)]

pub mod lock;
mod run;
pub mod terminate;
pub mod unlock;
