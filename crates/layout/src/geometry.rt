// The size of a card: its block count and its slot count, within their limits.
ghost use Rattle.std.specs.Prelude.{◌≡◌, true, false, MatchOption};
ghost use Rattle.layout.specs.Format.{in_limits};

#[derive(Clone, Copy, PartialEq, Eq, Debug)]
pub struct Geometry {
    pub blocks: u16,
    pub slots: u16,
    ghost ok: { in_limits blocks slots ≡ true },
}

impl Geometry {
    // None where a count is outside its limits.
    pub fn new(blocks: u16, slots: u16) -> Option<Geometry>
        ensures { MatchOption result (in_limits blocks slots ≡ false) (λ g. (in_limits blocks slots ≡ true) × (g.blocks ≡ blocks) × (g.slots ≡ slots)) }
    {
        if 2 <= slots && slots <= 256 && slots + 2 <= blocks && blocks <= 4096 {
            Some(Geometry { blocks, slots })
        } else {
            None
        }
    }
}
