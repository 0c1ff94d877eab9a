// Shows what a card gives after its plug was pulled in the middle of a save.
#![tactic(auto)]

fn main(rt: HostRuntime) -> anyhow::Result<()> {
    choir::showing::demonstrate(&rt)
}
