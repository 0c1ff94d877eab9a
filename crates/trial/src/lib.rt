// Whole lives of a card: a list of calls and power cuts is made on a new card, and the record of what was answered is a
// history of which the three laws hold.
#![tactic(auto)]

pub mod answer;
pub mod call;
mod calling;
pub mod run;
pub mod stand;
mod zeros;
