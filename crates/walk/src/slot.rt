// Slots, read through a device.
ghost use Rattle.std.specs.Prelude.{◌≡◌};
ghost use Rattle.std.specs.Option.{option_map};
ghost use Rattle.layout.specs.Format.{parse as parsed};
ghost use Rattle.layout.specs.Sizes.{sizes};
ghost use Rattle.layout.specs.View.{SlotSized, slot_view};
ghost use Rattle.rule.specs.Agree.{slot_in, number};
ghost use Rattle.rule.specs.Agree as agree;
ghost use Rattle.layout.specs.Format.{slotted};
ghost use Rattle.walk.specs.Still.{Says, shows};
ghost use Rattle.walk.specs.Copies.{copied, SlotIs};

use base::number::{BlockNo, Identity, LeafNo, SlotNo};
use base::owner::{Handle, Kind};
use device::Device;
use device::fault::Fault;
use layout::block::{Block, Slot, parse};
use layout::geometry::Geometry;
use layout::number::number16;

// A well-formed slot, taken out of its block; `numbers` are the block numbers of its leaves, two bytes each.
// Kept: a slice would keep the block, and an ArrayVec is not Copy, which the survey's array of slots needs.
#[derive(Clone, Copy, PartialEq, Eq, Debug)]
pub struct SlotCopy {
    pub kind: Kind,
    pub identity: Identity,
    pub parent: Handle,
    pub count: u16,
    pub numbers: [u8; 128],
}

// The slot in a block, if it is well formed.
pub fn slot_in(g: &Geometry, at: BlockNo, block: &[u8; 512]) -> Option<SlotCopy>
    ensures { option_map copied result ≡ slot_in (parsed (sizes g.now) at.0 block.now) }
{
    match parse(g, at, block) {
        Block::FileSlot(s) => Some(SlotCopy::new(Kind::File, &s)),
        Block::FolderSlot(s) => Some(SlotCopy::new(Kind::Folder, &s)),
        _ => None,
    }
}

// The slot, if it is well formed. One read, or none where the card has no such slot.
pub fn read_slot<D: Device>(
    device: &mut D,
    g: &Geometry,
    slot: SlotNo,
) -> Result<Option<SlotCopy>, Fault>
    ensures { Says g.now result (SlotIs (sizes g.now) (shows g.now (D.Device.model device.old)) slot.0) (D.Device.model device.old) (D.Device.model device.new) }
{
    let Some(at) = g.slot_block(slot) else {
        return Ok(None);
    };
    let block = device.read(at)?;
    Ok(slot_in(g, at, &block))
}

impl SlotCopy {
    #[tactic(auto, using(crate::proofs::Copying::numbers_copied))]
    fn new(kind: Kind, slot: &Slot) -> SlotCopy
        requires { SlotSized slot.now.numbers.now }
        ensures { slotted (copied result) ≡ slot_view kind slot.now }
    {
        let mut numbers = [0u8; 128];
        let length = slot.numbers.len();
        numbers[0..length].copy_from_slice(slot.numbers);
        SlotCopy {
            kind,
            identity: slot.identity,
            parent: slot.parent,
            count: (length / 2) as u16,
            numbers,
        }
    }

    // The block of a leaf; 0, which is no body, from the count on.
    // Kept: the rule's definition `number` is 0 there too, and a caller asks at once whether it is a body's.
    #[tactic(auto, using(crate::proofs::Copying::number_none, crate::proofs::Copying::number_here))]
    pub fn number(&self, leaf: LeafNo) -> BlockNo
        ensures { result.0 ≡ number (copied self.now) leaf.0 }
    {
        if leaf.0 >= self.count || leaf.0 >= 64 {
            return BlockNo(0);
        }
        let at = 2 * leaf.0 as usize;
        BlockNo(number16([self.numbers[at], self.numbers[at + 1]]))
    }
}
