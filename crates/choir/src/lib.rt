// The demonstration: a choir's parts lie on a card, the plug is pulled at every point of a save, and after each pull every
// leaf of every part is opened and compared.
#![tactic(auto)]

mod calls;
mod counting;
mod learning;
mod lives;
mod parts;
mod pulling;
pub mod showing;
mod sums;
mod telling;
mod trying;
