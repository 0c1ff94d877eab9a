// Reads a card script from the standard input, drives the card library, and prints one line for each command.
#![tactic(auto)]

mod answer;
mod bench;
mod calls;
mod image;
mod sessions;
mod stack;

fn main(rt: HostRuntime) -> anyhow::Result<()> {
    bench::run(&rt)
}
