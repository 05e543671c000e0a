// The list check: the lock list is sound against the image.
#![tactic(auto)]

mod apart;
pub mod check;
mod limits;
mod place;
mod places;
