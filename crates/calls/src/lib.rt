// A call on buffers, of a known kind of drive: the general refusals, the choice of the call's routine, the routine.
#![tactic(auto)]

pub mod answer;
mod choose;
pub mod refuse;
mod serve;
