// The words that every layer uses: numbers of four kinds, handles, back lines and refusals.
#![tactic(auto)]

pub mod number;
pub mod owner;
pub mod refusal;
pub mod text;
