// Devices whose power can be cut by the program that drives them.
#![tactic(auto)]

ghost use Rattle.std.specs.Prelude.{◌≡◌};
ghost use Rattle.device.specs.Model.{Cut};

use crate::trouble::Trouble;
use device::Device;

pub mod ledger;
pub mod trouble;

pub trait PowerCut: Device {
    // Cuts the power and turns it on again. `landing` says for each block which of the contents that may stand there
    // lands; any numbers will do.
    fn cut(&mut self, landing: &[u16])
        ensures { Cut (Self.Device.model self.old) (Self.Device.model self.new) };

    // Says what trouble awaits. What is shown and what may stand stays.
    fn set_trouble(&mut self, trouble: &Trouble)
        ensures { Self.Device.model self.new ≡ Self.Device.model self.old };
}
