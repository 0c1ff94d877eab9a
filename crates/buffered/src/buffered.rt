// The card itself. A write waits in the table; a ninth block first sends the highest waiting one down.
ghost use Rattle.std.specs.Prelude.{◌≡◌, true, false, MatchResult};
ghost use Rattle.device.specs.Answers.{Read, Write, Sync};
ghost use Rattle.device.specs.declared.fault.Fault.TheVariants.{PowerGone};
ghost use Rattle.buffered.specs.Buffered.{buffered, Empty, Inside};
ghost use Rattle.buffered.specs.Inner.{TopPut, Placed, NoPlace, Halted, SentDown};
ghost use Rattle.buffered.specs.Steps.{ReadBy, WriteBy, SyncBy};

use crate::table::{find, highest, vacant};
use base::number::BlockNo;
use device::Device;
use device::fault::{Fault, Synced, WHOLE};
use device::put::Put;

#[derive(Drop)]
pub struct Buffered<D: Device> {
    below: D,
    table: [Option<Put>; 8],
    gone: bool,
    pub ghost inside: { Inside table (D.Device.model below).count },
}

impl<D: Device> Buffered<D> {
    ghost use Rattle.buffered.specs.Card.{on};

    // A card over `below` on which nothing waits.
    pub fn new(below: D) -> Buffered<D>
        ensures { (result.below ≡ below) × (result.gone ≡ false) × Empty result.table }
    {
        Buffered {
            below,
            table: [None; 8],
            gone: false,
        }
    }

    // The device below, to be looked at from outside.
    pub fn below(&self) -> &D
        ensures { result.now ≡ self.now.below }
    {
        &self.below
    }

    // Sends down the highest waiting block, `put` at place `top`, in the course of a call about the block `call`.
    fn send_down(&mut self, top: usize, put: &Put, call: BlockNo) -> Result<(), Fault>
        requires { (TopPut self.old.table top put.now) × (self.old.gone ≡ false) }
        ensures { MatchResult result (λ _. SentDown (on self.old) top (on self.new)) (λ e. (e ≡ PowerGone call) × Halted (on self.old) top (on self.new)) }
    {
        if self.below.write(put.block, &put.bytes).is_err() {
            self.gone = true;
            return Err(Fault::PowerGone(call));
        }
        self.table[top] = None;
        Ok(())
    }

    // A place for a block: its own, or a free one, or the one that the highest block leaves.
    // Kept: that the power is on is asked of the two steps inside a call; the card itself may have lost it.
    fn place(&mut self, at: BlockNo) -> Result<usize, Fault>
        requires { self.old.gone ≡ false }
        ensures { MatchResult result (λ i. Placed (on self.old) at.0 i (on self.new)) (λ e. (e ≡ PowerGone at) × NoPlace (on self.old) at.0 (on self.new)) }
    {
        if let Some((own, _)) = find(&self.table, at) {
            return Ok(own);
        }
        if let Some(i) = vacant(&self.table) {
            return Ok(i);
        }
        let Some((top, put)) = highest(&self.table) else {
            unreachable()
        };
        let put = *put;
        self.send_down(top, &put, at)?;
        Ok(top)
    }
}

// Beside what every device promises, each call says by whom it was answered, what went down and what waits after.
impl<D: Device> Device for Buffered<D> {
    ghost use Rattle.buffered.specs.Card.{on};

    ghost model = { λ s. buffered (on s) };

    fn count(&self) -> u16 {
        self.below.count()
    }

    fn read(&mut self, at: BlockNo) -> Result<[u8; 512], Fault>
        ensures answer { Read at result (buffered (on self.old)) (buffered (on self.new)) }
        ensures exact { ReadBy at result (on self.old) (on self.new) }
    {
        if self.gone {
            return Err(Fault::PowerGone(at));
        }
        if at.0 >= self.below.count() {
            return Err(Fault::NoSuchBlock(at));
        }
        if let Some((_, put)) = find(&self.table, at) {
            return Ok(put.bytes);
        }
        let answer = self.below.read(at);
        self.gone = matches!(answer, Err(Fault::PowerGone(_)));
        answer
    }

    fn write(&mut self, at: BlockNo, bytes: &[u8; 512]) -> Result<(), Fault>
        ensures answer { Write at bytes.now result (buffered (on self.old)) (buffered (on self.new)) }
        ensures exact { WriteBy at bytes.now result (on self.old) (on self.new) }
    {
        if self.gone {
            return Err(Fault::PowerGone(at));
        }
        if at.0 >= self.below.count() {
            return Err(Fault::NoSuchBlock(at));
        }
        let i = self.place(at)?;
        self.table[i] = Some(Put {
            block: at,
            bytes: *bytes,
        });
        Ok(())
    }

    fn sync(&mut self) -> Result<Synced, Fault>
        ensures answer { Sync result (buffered (on self.old)) (buffered (on self.new)) }
        ensures exact { SyncBy result (on self.old) (on self.new) }
    {
        if self.gone {
            return Err(Fault::PowerGone(WHOLE));
        }
        while let Some((top, put)) = highest(&self.table) {
            let put = *put;
            self.send_down(top, &put, WHOLE)?;
        }
        let answer = self.below.sync();
        self.gone = matches!(answer, Err(Fault::PowerGone(_)));
        answer
    }
}
