// The vocabulary of the rules and the proofs; bytes and their bits, bytes compared, hints, and tests joined.
#![tactic(auto)]

pub mod bits;
pub mod byte;
pub mod compare;
pub mod hint;
pub mod test;
