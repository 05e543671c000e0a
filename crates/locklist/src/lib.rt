// The lock list's bytes: packed, unpacked and read place by place, begun by Start; and the FCB, read and put.
#![tactic(auto)]

pub mod fcb;
pub mod limit;
pub mod mark;
pub mod pack;
pub mod place;
pub mod start;
pub mod unpack;
