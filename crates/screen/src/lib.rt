// What a program in C asks of a card image: one leaf of one file.
#![tactic(auto)]

pub mod image;
pub mod leaf;
