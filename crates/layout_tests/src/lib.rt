// Blocks, entries and names at every edge of their ranges, and encoders against bytes written out.
#![tactic(auto)]

#[cfg(test)]
mod blocks;
#[cfg(test)]
mod cells;
#[cfg(test)]
mod written;
