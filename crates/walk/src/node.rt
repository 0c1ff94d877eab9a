// A file or folder that was found: its handle, with a copy of its slot.
ghost use Rattle.std.specs.Prelude.{◌≡◌, Ok, Err, MatchResult};
ghost use Rattle.rule.specs.Reading.{kind_is};
ghost use Rattle.walk.specs.Copies.{copied};

use crate::slot::SlotCopy;
use base::owner::{Handle, Kind};
use base::refusal::Refusal;

#[derive(Clone, Copy, PartialEq, Eq, Debug)]
pub struct Node {
    pub handle: Handle,
    pub slot: SlotCopy,
}

impl Node {
    // Refused unless it is of this kind.
    #[tactic(auto, using(crate::proofs::Stepping::kind_ok, crate::proofs::Stepping::kind_err, crate::proofs::Stepping::kinds_same))]
    pub fn want_kind(&self, kind: Kind) -> Result<(), Refusal>
        ensures { MatchResult result (λ _. kind_is kind self.now.handle (copied self.now.slot) ≡ Ok (copied self.now.slot)) (λ e. kind_is kind self.now.handle (copied self.now.slot) ≡ Err e) }
    {
        if self.slot.kind == kind {
            Ok(())
        } else {
            Err(Refusal::WrongKind(self.handle.slot))
        }
    }
}
