// Where the blocks of a card lie.
ghost use Rattle.std.specs.Prelude.{◌≡◌, ◌+◌, ◌<◌, ◌≤◌, MatchOption};
ghost use Rattle.layout.specs.Format.{body_number, region};
ghost use Rattle.layout.specs.Sizes.{sizes, region_view};

use crate::geometry::Geometry;
use base::number::{BlockNo, SlotNo};

// Where a block lies, which says which kinds may stand there.
#[derive(Clone, Copy, PartialEq, Eq, Debug)]
pub enum Region {
    Cover,
    Slots,
    Bodies,
    Beyond,
}

impl Geometry {
    pub fn region(&self, at: BlockNo) -> Region
        ensures { region_view result ≡ region (sizes self.now) at.0 }
    {
        if at == BlockNo(0) {
            Region::Cover
        } else if at.0 <= self.slots {
            Region::Slots
        } else if at.0 < self.blocks {
            Region::Bodies
        } else {
            Region::Beyond
        }
    }

    // Whether a body may stand there.
    pub fn is_body(&self, at: BlockNo) -> bool
        ensures { result ≡ body_number (sizes self.now) at.0 }
    {
        self.slots < at.0 && at.0 < self.blocks
    }

    // The block of a slot; None where the card has no such slot.
    pub fn slot_block(&self, slot: SlotNo) -> Option<BlockNo>
        ensures { MatchOption result (self.now.slots ≤ slot.0) (λ b. (slot.0 < self.now.slots) × (b.0 ≡ slot.0 + 1)) }
    {
        if slot.0 < self.slots {
            Some(BlockNo(slot.0 + 1))
        } else {
            None
        }
    }
}
