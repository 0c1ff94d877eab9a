// Pulls the plug on a stack of cards, and shows what became of each block.
#![tactic(auto)]

mod blocks;
mod stack;

fn main(rt: HostRuntime) -> anyhow::Result<()> {
    stack::pull(&rt)
}
