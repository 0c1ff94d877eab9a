// The buffered card, over any device: it holds back up to 8 blocks, and shows them in preference to those below.
#![tactic(auto)]

pub mod buffered;
pub mod laws;
mod table;
