// What each changing call is going to do: the blocks to write with their bytes, and what the card keeps after.
// The device is only read; what is reached, good, sound and free is told by the marks in memory.
#![tactic(auto)]

mod blocks;
mod changing;
pub mod create;
pub mod drop;
pub mod known;
pub mod plan;
pub mod remove;
mod scan;
pub mod shorten;
pub mod write;
