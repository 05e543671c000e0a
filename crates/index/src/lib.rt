// Where to begin to look for an extent of a file: slots, and finding by hints. Nothing here changes the directory.
#![tactic(auto)]

pub mod find;
pub mod slot;
