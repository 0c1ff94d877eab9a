// Reading a card through any device: slots, leaves, entries and paths.
#![tactic(auto)]

// Kept: device and geometry stay two parameters: each method of a struct that lends the device needs a clause more, that it still lends the same one (tried at read_slot), and a bad card has a device and no geometry.
pub mod child;
mod components;
pub mod entry;
pub mod handle;
pub mod leaf;
pub mod leaf_copy;
pub mod node;
pub mod path;
pub mod slot;
