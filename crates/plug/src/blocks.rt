// What a block holds, as far as a look at its bytes tells.
ghost use Rattle.std.specs.Prelude.{◌≡◌, ℕ, ◌<◌, length, MatchOption};
ghost use Rattle.plug.specs.Filling.{Filled, Mixed};

// The byte that fills a block, where one does.
pub fn filling(block: &[u8; 512]) -> Option<u8>
    ensures { MatchOption result (Mixed block.now) (Filled block.now) }
{
    let first = block[0];
    block.iter().all(|byte| *byte == first).then_some(first)
}
