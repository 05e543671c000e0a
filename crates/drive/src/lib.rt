// The image check, the vector of an image, free blocks, Look. Nothing here changes the image.
#![tactic(auto)]

pub mod check;
pub mod free;
pub mod look;
pub mod vector;
