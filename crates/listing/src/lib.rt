// One list for every kind of line: it fills the caller's lines by place and counts those that find none.
#![tactic(auto)]

pub mod line;
pub mod list;
