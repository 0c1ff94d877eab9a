// The marks of a surveyed card.
ghost use Rattle.std.specs.Prelude.{◌≡◌, ℕ, length, None, slice_index_or};
ghost use Rattle.std.specs.Option.{option_map};
ghost use Rattle.layout.specs.Sizes.{sizes};
ghost use Rattle.marks.specs.Marks.{Whole, parent_line, slot_taken, is_leaf, is_child, next_free_slot, next_free_body, slots_left, bodies_left, with_slot, with_body, released};

use crate::places::{count_free, mark_at, next_free, set_mark};
use base::number::{BlockNo, Identity, SlotNo};
use base::owner::{Back, Handle};
use layout::geometry::Geometry;
use layout::owner::{Owned, names};

// What is kept of a reached slot.
#[derive(Clone, Copy, PartialEq, Eq, Debug)]
pub struct SlotMark {
    pub identity: Identity,
    pub parent: Handle,
}

// A slot's mark names the folder that the slot is in.
impl Owned for SlotMark {
    type Line = Handle;

    ghost owner = { parent_line };

    fn line(&self) -> Handle {
        self.parent
    }
}

// For each slot what it is, if it is reached; for each block whose leaf it is, if it is held. The rest is free.
#[derive(Clone, Copy, PartialEq, Eq, Debug)]
pub struct Marks {
    pub slots: [Option<SlotMark>; 256],
    pub bodies: [Option<Back>; 4096],
}

fn whole_arrays(slots: &[Option<SlotMark>; 256], bodies: &[Option<Back>; 4096])
    ensures slots { length slots.now ≡ 256 }
    ensures bodies { length bodies.now ≡ 4096 }
{}

impl Marks {
    // Computes nothing: says that there is a place for every slot and every block.
    // Kept: as a ghost field it would have to be proved wherever a definition makes marks, as `with_slot` does.
    pub fn whole(&self)
        ensures { Whole self.now }
    {
        whole_arrays(&self.slots, &self.bodies);
    }

    // Nothing is reached or held.
    pub fn none() -> Marks
        ensures slots { (s : ℕ) → slice_index_or result.slots s None ≡ None }
        ensures bodies { (b : ℕ) → slice_index_or result.bodies b None ≡ None }
    {
        Marks {
            slots: [None; 256],
            bodies: [None; 4096],
        }
    }

    pub fn is_reached(&self, slot: SlotNo) -> bool
        ensures { result ≡ slot_taken self.now slot.0 }
    {
        mark_at(&self.slots, slot.0).is_some()
    }

    // Whether a block is marked as this leaf.
    pub fn is_leaf(&self, at: BlockNo, back: &Back) -> bool
        ensures { result ≡ is_leaf self.now at.0 back.now }
    {
        mark_at(&self.bodies, at.0) == Some(*back)
    }

    // Whether an entry of the folder that leads to the child is sound, by the mark of the child's slot.
    pub fn is_child(&self, folder: &Handle, child: &Handle) -> bool
        ensures { result ≡ is_child self.now folder.now child.now }
    {
        let Some(mark) = mark_at(&self.slots, child.slot.0) else {
            return false;
        };
        mark.identity == child.identity && names(&mark, folder)
    }

    // Kept: here and below slots and bodies have methods of their own, a line each over `places`, so that no number stands in for another kind.
    // The first free slot at or after the cursor, going round.
    pub fn free_slot(&self, g: &Geometry, at: u16) -> Option<SlotNo>
        ensures { option_map (λ s. s.0) result ≡ next_free_slot (sizes g.now) self.now at }
    {
        next_free(&self.slots, 0, g.slots, at).map(SlotNo)
    }

    // The first free body at or after the cursor, going round.
    pub fn free_body(&self, g: &Geometry, at: u16) -> Option<BlockNo>
        ensures { option_map (λ b. b.0) result ≡ next_free_body (sizes g.now) self.now at }
    {
        next_free(&self.bodies, g.slots + 1, g.blocks, at).map(BlockNo)
    }

    // How many slots are free.
    pub fn slots_left(&self, g: &Geometry) -> u16
        ensures { result ≡ slots_left (sizes g.now) self.now }
    {
        count_free(&self.slots, 0, g.slots)
    }

    // How many bodies are free.
    pub fn bodies_left(&self, g: &Geometry) -> u16
        ensures { result ≡ bodies_left (sizes g.now) self.now }
    {
        count_free(&self.bodies, g.slots + 1, g.blocks)
    }

    pub fn set_slot(&mut self, slot: SlotNo, mark: Option<SlotMark>)
        ensures { self.new ≡ with_slot self.old slot.0 mark }
    {
        set_mark(&mut self.slots, slot.0, mark);
    }

    pub fn set_body(&mut self, at: BlockNo, mark: Option<Back>)
        ensures { self.new ≡ with_body self.old at.0 mark }
    {
        set_mark(&mut self.bodies, at.0, mark);
    }

    // A block is free again, if it was marked as this leaf.
    pub fn release(&mut self, at: BlockNo, back: &Back)
        ensures { self.new ≡ released self.old at.0 back.now }
    {
        if self.is_leaf(at, back) {
            self.set_body(at, None);
        }
    }
}
