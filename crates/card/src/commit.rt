// A plan carried out on a card.
ghost use Rattle.std.specs.Prelude.{◌≡◌, None};
ghost use Rattle.device.specs.Effect.{first_outside};
ghost use Rattle.change.specs.Plans.{puts_in};
ghost use Rattle.card.specs.Commits.{Puts, Commits};

use crate::inner::Core;
use base::refusal::Refusal;
use change::plan::{Memory, Plan};
use device::Device;
use device::effect::write_all;

// Writes the blocks of a plan.
fn write_plan<D: Device>(device: &mut D, plan: &Plan) -> Result<(), Refusal>
    ensures written { first_outside (D.Device.model device.old).count (puts_in plan.now) ≡ None → Puts (puts_in plan.now) (D.Device.model device.old) result (D.Device.model device.new) }
    ensures count { (D.Device.model device.new).count ≡ (D.Device.model device.old).count }
{
    write_all(device, &plan.puts[..plan.len])?;
    Ok(())
}

impl<D: Device> Core<D> {
    // Carries a plan out: all of its blocks are written and its memory is kept, or power gone is met.
    pub(crate) fn commit(&mut self, plan: &Plan, memory: &mut Memory) -> Result<(), Refusal>
        ensures { first_outside (D.Device.model self.old.device).count (puts_in plan.now) ≡ None → Commits (puts_in plan.now) plan.now.memory self.old.ready memory.old (D.Device.model self.old.device) result self.new.ready memory.new (D.Device.model self.new.device) }
    {
        let written = write_plan(&mut self.device, plan);
        self.keep(written)?;
        *memory = plan.memory;
        Ok(())
    }
}
