// A survey of a card, block by block.
ghost use Rattle.std.specs.Prelude.{◌≡◌, suc, ◌<◌};
ghost use Rattle.layout.specs.Format.{parse as parsed, Geometry as Sizes};
ghost use Rattle.layout.specs.Sizes.{sizes};
ghost use Rattle.rule.specs.Agree.{View};
ghost use Rattle.marks.specs.Marks.{Agree, Whole};
ghost use Rattle.survey.specs.Survey.{Apart, Sofar};

use crate::mark::mark_bodies;
use crate::slots::Slots;
use base::number::BlockNo;
use base::owner::Back;
use layout::geometry::Geometry;
use layout::region::Region;
use marks::mark::Marks;

// What is remembered of the blocks examined so far: the well-formed slots, with which of them a sound entry leads to; and
// of each block that is a good leaf its back line. Slots come before bodies, so that every slot is known when a body is
// examined.
#[derive(Clone, Copy)]
pub struct Survey {
    slots: Slots,
    bodies: [Option<Back>; 4096],
}

// Nothing is examined but the cover, which tells nothing here.
pub fn begin() -> Survey
    ensures { (g : Sizes) (v : View) → Apart g v → Sofar g v 1 result }
{
    Survey {
        slots: Slots::new(),
        bodies: [None; 4096],
    }
}

impl Survey {
    // Learns what the next block tells.
    pub fn examine(&mut self, g: &Geometry, at: BlockNo, block: &[u8; 512])
        ensures { (v : View) → Sofar (sizes g.now) v at.0 self.old → 0 < at.0 → at.0 < g.now.blocks → v at.0 ≡ parsed (sizes g.now) at.0 block.now → Sofar (sizes g.now) v (suc at.0) self.new }
    {
        match g.region(at) {
            Region::Slots => self.slots.keep(g, at, block),
            Region::Bodies => {
                let line = self.slots.examine_body(g, at, block);
                self.bodies[at.0 as usize] = line;
            }
            Region::Cover | Region::Beyond => {}
        }
    }

    // The marks, once every block is examined.
    pub fn finish(&self, g: &Geometry) -> Marks
        ensures whole { Whole result }
        ensures agrees { (v : View) → Sofar (sizes g.now) v g.now.blocks self.now → Agree (sizes g.now) v result }
    {
        let slots = self.slots.marks(g.slots);
        let bodies = mark_bodies(&self.bodies, &slots);
        Marks { slots, bodies }
    }
}
