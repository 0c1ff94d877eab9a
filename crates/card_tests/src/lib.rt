// Examples of the reading calls, run: what they answer, refuse and read, and what they make of hostile images.
#![tactic(auto)]

#[cfg(test)]
mod answers;
pub mod calls;
pub mod counting;
pub mod fading;
#[cfg(test)]
mod hostile;
pub mod image;
#[cfg(test)]
mod opening;
#[cfg(test)]
mod reads;
#[cfg(test)]
mod refused;
#[cfg(test)]
mod screen_order;
pub mod told;
