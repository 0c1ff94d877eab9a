// A device that counts what is asked of the device below.
ghost use Rattle.device.specs.Answers.{Read, Write, Sync};

use base::number::BlockNo;
use device::Device;
use device::fault::{Fault, Synced};

// How many reads, writes and syncs.
#[derive(Clone, Copy, Default, PartialEq, Eq, Debug)]
pub struct Tally {
    pub reads: u32,
    pub writes: u32,
    pub syncs: u32,
}

impl Tally {
    // What came since an earlier tally.
    pub fn since(&self, earlier: &Tally) -> Tally {
        Tally {
            reads: self.reads.saturating_sub(earlier.reads),
            writes: self.writes.saturating_sub(earlier.writes),
            syncs: self.syncs.saturating_sub(earlier.syncs),
        }
    }
}

#[derive(Drop)]
pub struct Counting<D> {
    pub below: D,
    pub tally: Tally,
}

impl<D> Counting<D> {
    pub fn new(below: D) -> Counting<D> {
        Counting {
            below,
            tally: Tally::default(),
        }
    }
}

impl<D: Device> Device for Counting<D> {
    ghost model = { λ c. D.Device.model c.below };

    fn count(&self) -> u16 {
        self.below.count()
    }

    fn read(&mut self, at: BlockNo) -> Result<[u8; 512], Fault>
        ensures { Read at result (D.Device.model self.old.below) (D.Device.model self.new.below) }
    {
        self.tally.reads = self.tally.reads.saturating_add(1);
        self.below.read(at)
    }

    fn write(&mut self, at: BlockNo, bytes: &[u8; 512]) -> Result<(), Fault>
        ensures { Write at bytes.now result (D.Device.model self.old.below) (D.Device.model self.new.below) }
    {
        self.tally.writes = self.tally.writes.saturating_add(1);
        self.below.write(at, bytes)
    }

    fn sync(&mut self) -> Result<Synced, Fault>
        ensures { Sync result (D.Device.model self.old.below) (D.Device.model self.new.below) }
    {
        self.tally.syncs = self.tally.syncs.saturating_add(1);
        self.below.sync()
    }
}
