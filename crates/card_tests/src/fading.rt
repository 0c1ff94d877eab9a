// A device that loses its power at a read: so many reads are answered, and after that no call is.
ghost use Rattle.device.specs.Answers.{Read, Write, Sync};
ghost use Rattle.device.specs.Failing.{failing};

use base::number::BlockNo;
use device::Device;
use device::fault::{Fault, Synced, WHOLE};

#[derive(Drop)]
pub struct Fading<D> {
    below: D,
    // How many more reads are answered. None: the power is gone.
    left: Option<u32>,
}

impl<D: Device> Fading<D> {
    pub fn new(below: D, reads: u32) -> Fading<D> {
        Fading {
            below,
            left: Some(reads),
        }
    }
}

impl<D: Device> Device for Fading<D> {
    ghost model = { λ f. failing f.left (D.Device.model f.below) };

    fn count(&self) -> u16 {
        self.below.count()
    }

    fn read(&mut self, at: BlockNo) -> Result<[u8; 512], Fault>
        ensures { Read at result (failing self.old.left (D.Device.model self.old.below)) (failing self.new.left (D.Device.model self.new.below)) }
    {
        let Some(left @ 1..) = self.left else {
            self.left = None;
            return Err(Fault::PowerGone(at));
        };
        let block = self.below.read(at)?;
        self.left = Some(left - 1);
        Ok(block)
    }

    fn write(&mut self, at: BlockNo, bytes: &[u8; 512]) -> Result<(), Fault>
        ensures { Write at bytes.now result (failing self.old.left (D.Device.model self.old.below)) (failing self.new.left (D.Device.model self.new.below)) }
    {
        if self.left.is_none() {
            return Err(Fault::PowerGone(at));
        }
        self.below.write(at, bytes)
    }

    fn sync(&mut self) -> Result<Synced, Fault>
        ensures { Sync result (failing self.old.left (D.Device.model self.old.below)) (failing self.new.left (D.Device.model self.new.below)) }
    {
        if self.left.is_none() {
            return Err(Fault::PowerGone(WHOLE));
        }
        self.below.sync()
    }
}
