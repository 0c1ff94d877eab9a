// Card scripts: the words of a line, and the commands that they are.
#![tactic(auto)]

pub mod command;
pub mod word;
