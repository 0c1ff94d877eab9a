// The bytes that are written: blocks, and the cells of a folder's leaf.
#![tactic(auto)]

pub mod block;
mod bytes;
pub mod entry;
pub mod slot;
