// The repair of a damaged image (T-08): entries emptied, then block numbers zeroed, and a report of both.
#![tactic(auto)]

mod empty;
mod maps;
pub mod mend;
