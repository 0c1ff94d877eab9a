// How far the survey of a card has come.
ghost use Rattle.std.specs.Prelude.{◌≡◌, ◌+◌, ◌<◌, Ok, MatchResult};
ghost use Rattle.device.specs.Model.{Model};
ghost use Rattle.layout.specs.Sizes.{sizes};
ghost use Rattle.layout.specs.declared.geometry.Geometry.{Geometry as CardGeometry};
ghost use Rattle.rule.specs.Card.{examined, surveyed};
ghost use Rattle.card.specs.Progress.{Learned, Examines, so_far};

use base::number::{BlockNo, Identity};
use base::refusal::Refusal;
use device::Device;
use entries::identity::highest_told;
use layout::geometry::Geometry;
use survey::survey::{Survey, begin};

// `next` is the block that the survey examines next, `highest` the highest identity that it has seen so far, and `survey`
// what else it has learned.
#[derive(Clone, Copy)]
pub(crate) struct Progress {
    pub next: u16,
    pub highest: Identity,
    pub survey: Survey,
}

impl Progress {
    // The cover tells nothing here.
    pub(crate) fn start() -> Progress
        ensures starts { (result.next ≡ 1) × (result.highest.0 ≡ 0) }
        ensures learned { (g : CardGeometry) (m : Model) → Learned g m result }
    {
        Progress {
            next: 1,
            highest: Identity(0),
            survey: begin(),
        }
    }

    // Examines block `next`: one read.
    pub(crate) fn examine_next<D: Device>(
        &mut self,
        device: &mut D,
        g: &Geometry,
    ) -> Result<(), Refusal>
        requires { self.old.next < g.now.blocks }
        ensures examined { Learned g.now (D.Device.model device.old) self.old → Examines g.now result (Learned g.now (D.Device.model device.old) self.new × (so_far (Ok (sizes g.now)) self.new ≡ examined (sizes g.now) (D.Device.model device.old).shown (so_far (Ok (sizes g.now)) self.old))) (D.Device.model device.old) (D.Device.model device.new) }
        ensures kept { MatchResult result (λ _. self.new.next ≡ self.old.next + 1) (λ _. self.new ≡ self.old) }
    {
        let at = BlockNo(self.next);
        let block = device.read(at)?;
        let told = highest_told(g, at, &block);
        self.highest = Identity(self.highest.0.max(told.0));
        self.survey.examine(g, at, &block);
        self.next += 1;
        Ok(())
    }

    // Examines the blocks that remain.
    pub(crate) fn examine_rest<D: Device>(
        &mut self,
        device: &mut D,
        g: &Geometry,
    ) -> Result<(), Refusal>
        ensures { Learned g.now (D.Device.model device.old) self.old → Examines g.now result (Learned g.now (D.Device.model device.old) self.new × (self.new.next ≡ g.now.blocks) × (surveyed (so_far (Ok (sizes g.now)) self.new) (D.Device.model device.old).shown ≡ surveyed (so_far (Ok (sizes g.now)) self.old) (D.Device.model device.old).shown)) (D.Device.model device.old) (D.Device.model device.new) }
    {
        // Kept: the number of the next block is what the survey keeps and each step moves; a `for` would count it twice.
        while self.next < g.blocks {
            self.examine_next(device, g)?;
        }
        Ok(())
    }
}
