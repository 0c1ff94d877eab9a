// The survey of a card: one look at each of its blocks, in order, and at the end the marks.
#![tactic(auto)]

mod mark;
mod slots;
pub mod survey;
