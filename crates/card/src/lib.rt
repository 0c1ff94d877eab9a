// A card on a device: what can be read of it.
#![tactic(auto)]

mod commit;
pub mod file;
pub mod inner;
pub mod lists;
pub mod open;
pub mod opened;
mod progress;
pub mod readable;
pub mod surveyed;
