// A device of 512-byte blocks whose writes may land in any order, and two cards that are such devices.
//
// What a device means is said by a ghost model: how many blocks it has, whether its power is on, what each block shows,
// and for each block the contents of which it may show one after a power cut. Code above is proved once, for every device.
#![tactic(auto)]

ghost use Rattle.std.specs.Prelude.{◌≡◌};
ghost use Rattle.device.specs.Model.{Model};
ghost use Rattle.device.specs.Answers.{Read, Write, Sync};

use crate::fault::{Fault, Synced};
use base::number::BlockNo;

pub mod effect;
pub mod failing;
pub mod fault;
pub mod plain;
pub mod put;

pub trait Device {
    ghost model: { Self → Model };

    // How many blocks there are. Asking needs no power.
    fn count(&self) -> u16
        ensures { result ≡ (model self.now).count };

    // What a block shows.
    fn read(&mut self, at: BlockNo) -> Result<[u8; 512], Fault>
        ensures { Read at result (model self.old) (model self.new) };

    // Makes a block show new bytes, which may or may not have landed when the power is cut.
    fn write(&mut self, at: BlockNo, bytes: &[u8; 512]) -> Result<(), Fault>
        ensures { Write at bytes.now result (model self.old) (model self.new) };

    // Asks that all that is shown lands (a flush). After `Settled` it has; after `Unsure` nothing is known.
    fn sync(&mut self) -> Result<Synced, Fault>
        ensures { Sync result (model self.old) (model self.new) };
}
