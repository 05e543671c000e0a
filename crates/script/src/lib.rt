// What `mpmcalls` reads and prints: its records and its lines, as functions on bytes, and the engine called by them.
#![tactic(auto)]

pub mod caller;
pub mod line;
mod part;
pub mod record;
