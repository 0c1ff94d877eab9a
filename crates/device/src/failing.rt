// The failing card, over any device: it passes a given number of accepted writes, and has no power from the next write on.
ghost use Rattle.std.specs.Prelude.{◌≡◌, Some, Err, MatchBool, MatchOption};
ghost use Rattle.device.specs.Answers.{Read, Write, Sync};
ghost use Rattle.device.specs.Failing.{failing, spent, Refuses, Fails, Passes, PassesWrite};
ghost use Rattle.device.specs.declared.fault.Fault.TheVariants.{PowerGone};

use crate::Device;
use crate::fault::{Fault, Synced, WHOLE};
use base::number::BlockNo;

#[derive(Drop)]
pub struct Failing<D> {
    below: D,
    // How many more writes are passed on. None: the power is gone.
    left: Option<u32>,
}

impl<D: Device> Failing<D> {
    // A card that loses its power once `writes` writes were accepted.
    pub fn new(below: D, writes: u32) -> Failing<D>
        ensures { (result.below ≡ below) × (result.left ≡ Some writes) }
    {
        Failing {
            below,
            left: Some(writes),
        }
    }

    // The device below, to be looked at from outside.
    pub fn below(&self) -> &D
        ensures { result.now ≡ self.now.below }
    {
        &self.below
    }
}

impl<D: Device> Device for Failing<D> {
    ghost model = { λ f. failing f.left (D.Device.model f.below) };

    fn count(&self) -> u16 {
        self.below.count()
    }

    fn read(&mut self, at: BlockNo) -> Result<[u8; 512], Fault>
        ensures answer { Read at result (failing self.old.left (D.Device.model self.old.below)) (failing self.new.left (D.Device.model self.new.below)) }
        ensures exact { MatchOption self.old.left (Refuses at result self.old self.new) (λ _. Passes self.old self.new (Read at result (D.Device.model self.old.below) (D.Device.model self.new.below))) }
    {
        if self.left.is_none() {
            return Err(Fault::PowerGone(at));
        }
        self.below.read(at)
    }

    fn write(&mut self, at: BlockNo, bytes: &[u8; 512]) -> Result<(), Fault>
        ensures answer { Write at bytes.now result (failing self.old.left (D.Device.model self.old.below)) (failing self.new.left (D.Device.model self.new.below)) }
        ensures exact { MatchBool (spent self.old.left) (Fails at result self.old self.new) (PassesWrite result self.old self.new (Write at bytes.now result (D.Device.model self.old.below) (D.Device.model self.new.below))) }
    {
        let Some(left @ 1..) = self.left else {
            self.left = None;
            return Err(Fault::PowerGone(at));
        };
        self.below.write(at, bytes)?;
        self.left = Some(left - 1);
        Ok(())
    }

    fn sync(&mut self) -> Result<Synced, Fault>
        ensures answer { Sync result (failing self.old.left (D.Device.model self.old.below)) (failing self.new.left (D.Device.model self.new.below)) }
        ensures exact { MatchOption self.old.left (Refuses (record { 0 = 65535 }) result self.old self.new) (λ _. Passes self.old self.new (Sync result (D.Device.model self.old.below) (D.Device.model self.new.below))) }
    {
        if self.left.is_none() {
            return Err(Fault::PowerGone(WHOLE));
        }
        self.below.sync()
    }
}
