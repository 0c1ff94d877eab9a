// The entries of a folder, and the highest identity that a block tells.
#![tactic(auto)]

pub mod entry;
pub mod identity;
