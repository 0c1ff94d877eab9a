// Tours of a whole card or folder, through any device: what is reached, the entries of a folder, the leaves that are not good.
// Kept: device and geometry stay two parameters, as in the crate walk: a struct that lends the device needs in each method a clause more, that it lends the same one.
#![tactic(auto)]

pub mod damage;
pub mod list;
pub mod marks;
mod work;
