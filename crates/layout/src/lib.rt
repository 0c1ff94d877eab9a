// The card's format: geometry, regions, blocks, owners.
#![tactic(auto)]

pub mod block;
pub mod geometry;
pub mod number;
pub mod owner;
pub mod region;
