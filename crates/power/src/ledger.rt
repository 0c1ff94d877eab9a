// A device in memory that keeps, for each block, the contents that may stand after a cut: what has landed, and every
// write since. A test says when the power goes, what the last write leaves, and what lands at a cut.
ghost use Rattle.std.specs.Prelude.{◌≡◌, ◌+◌, ◌%◌, ◌<◌, ◌≤◌, false, [], ◌∷◌, length, IfOk, vec_len, slice_index_or};
ghost use Rattle.device.specs.Answers.{Read, Write, Sync};
ghost use Rattle.device.specs.Model.{Cut};
ghost use Rattle.power.specs.View.{view, ledger, blocks, shows, written, newest_of};
ghost use Rattle.power.specs.Calls.{noted, replay, settle as settled_view, look};
ghost use Rattle.power.specs.Calls.{pick as pick_of, LandedAll, CutLeft, Fresh, with_left, with_last, with_unsure};
ghost use Rattle.power.specs.Calls.{read_answer, write_answer, write_after, sync_answer, sync_after};

use crate::PowerCut;
use crate::trouble::Trouble;
use base::number::BlockNo;
use device::Device;
use device::fault::{Fault, Synced, WHOLE};
use device::put::Put;
use std::alloc::{AllocError, Global};

// What the write that takes the power leaves: nothing, or its bytes among those that may stand.
#[derive(Clone, Copy, PartialEq, Eq, Debug)]
pub enum LastWrite {
    Lost,
    MayStand,
}

#[derive(Drop)]
pub struct Ledger {
    // What has landed for sure, block by block.
    settled: Vec<[u8; 512]>,
    // The writes since, in their order.
    log: Vec<Put>,
    // How many more writes are accepted before one takes the power. None: any number.
    left: Option<u32>,
    last: LastWrite,
    gone: bool,
    // A sync answers `Unsure` and settles nothing.
    unsure: bool,
}

// Kept: here and in the two below a put's number is compared to an index, since the blocks are the indices of a Vec.
// The newest content of a block that had `first` before the writes of the log.
fn newest(first: [u8; 512], log: &[Put], at: usize) -> [u8; 512]
    ensures { result ≡ newest_of first (written log.now at) }
{
    let mut shown = first;
    for put in log {
        if put.block.0 as usize == at {
            shown = put.bytes;
        }
    }
    shown
}

// How many writes of the log are to a block.
fn writes_to(log: &[Put], at: usize) -> usize
    ensures answer { result ≡ length (written log.now at) }
    ensures small { result ≤ length log.now }
{
    let mut many = 0;
    for put in log {
        if put.block.0 as usize == at {
            many += 1;
        }
    }
    many
}

// A content of a block that had `first` before the writes of the log: 0 is the oldest.
fn nth(first: [u8; 512], log: &[Put], at: usize, n: usize) -> [u8; 512]
    requires { n ≤ length (written log.now at) }
    ensures { result ≡ slice_index_or (first ∷ written log.now at) n [] }
{
    let mut left = n;
    let mut content = first;
    for put in log {
        if put.block.0 as usize == at {
            if left == 0 {
                return content;
            }
            left -= 1;
            content = put.bytes;
        }
    }
    content
}

// The number that `landing` says for a block. Its numbers are used over and over.
fn pick(landing: &[u16], at: usize) -> u16
    ensures { result ≡ pick_of landing.now at }
{
    if landing.is_empty() {
        return 0;
    }
    landing[at % landing.len()]
}

// The content that lands by the number `choice` at a block that had `first` before the writes of the log.
fn landing_at(first: [u8; 512], log: &[Put], at: usize, choice: u16) -> [u8; 512]
    ensures { result ≡ slice_index_or (first ∷ written log.now at) (choice % (1 + length (written log.now at))) [] }
{
    let many = 1 + writes_to(log, at);
    nth(first, log, at, choice as usize % many)
}

// Puts land, one after another. One to a block that there is not is let go.
fn land(settled: &mut [[u8; 512]], log: &[Put])
    ensures { settled.new ≡ replay settled.old log.now }
{
    for put in log {
        let at = put.block.0 as usize;
        if at < settled.len() {
            let bytes = put.bytes;
            settled[at] = bytes;
        }
    }
}

impl Ledger {
    // A ledger of `count` zero blocks that holds back at least `log` writes before it lets them land.
    pub fn new(heap: Global, count: u16, log: usize) -> Result<Ledger, AllocError>
        ensures { IfOk result (λ l. Fresh count log (view l)) }
    {
        let mut settled = Vec::new(heap);
        settled.resize(count as usize, [0; 512])?;
        Ok(Ledger {
            settled,
            log: Vec::with_capacity(heap, log)?,
            left: None,
            last: LastWrite::Lost,
            gone: false,
            unsure: false,
        })
    }

    // Accepts `left` more writes, and loses the power at the next. None: accepts any number.
    pub fn set_fuse(&mut self, left: Option<u32>)
        ensures view { view self.new ≡ with_left (view self.old) left }
        ensures model { ledger (view self.new) ≡ ledger (view self.old) }
    {
        self.left = left;
    }

    // Says what the write that takes the power leaves. A new ledger loses it.
    pub fn set_last(&mut self, last: LastWrite)
        ensures view { view self.new ≡ with_last (view self.old) last }
        ensures model { ledger (view self.new) ≡ ledger (view self.old) }
    {
        self.last = last;
    }

    // Says whether a sync answers `Unsure` and settles nothing.
    pub fn set_unsure(&mut self, unsure: bool)
        ensures view { view self.new ≡ with_unsure (view self.old) unsure }
        ensures model { ledger (view self.new) ≡ ledger (view self.old) }
    {
        self.unsure = unsure;
    }

    // What a block shows, for a look from outside: it needs no power.
    pub fn shown(&self, at: BlockNo) -> Option<[u8; 512]>
        ensures { result ≡ look at (view self.now) }
    {
        if at.0 >= self.blocks() {
            return None;
        }
        Some(self.content(at.0))
    }

    fn blocks(&self) -> u16
        ensures { result ≡ blocks (view self.now) }
    {
        self.settled.len().min(65535) as u16
    }

    fn content(&self, at: u16) -> [u8; 512]
        requires { at < vec_len self.now.settled }
        ensures { result ≡ shows self.now.settled.items self.now.log.items at }
    {
        newest(self.settled[at as usize], &self.log, at as usize)
    }

    // Everything that is shown lands.
    fn settle(&mut self)
        ensures { view self.new ≡ settled_view (view self.old) }
    {
        land(&mut self.settled, &self.log);
        self.log.clear();
    }

    // Takes a put into the log. A full log is settled first; where it has no room at all, the put lands at once.
    fn note(&mut self, put: Put)
        ensures { view self.new ≡ noted put (view self.old) }
    {
        if self.log.len() < self.log.capacity() {
            self.log.push_reserved(put);
            return;
        }
        self.settle();
        if self.log.capacity() > 0 {
            self.log.push_reserved(put);
            return;
        }
        land(&mut self.settled, &[put]);
    }

    // In each block one content lands.
    fn land_all(&mut self, landing: &[u16])
        ensures { LandedAll landing.now (view self.old) (view self.new) }
    {
        for (at, block) in self.settled.iter_mut().enumerate() {
            *block = landing_at(*block, &self.log, at, pick(landing, at));
        }
    }
}

impl Device for Ledger {
    ghost model = { λ l. ledger (view l) };

    fn count(&self) -> u16 {
        self.blocks()
    }

    fn read(&mut self, at: BlockNo) -> Result<[u8; 512], Fault>
        ensures answer { Read at result (ledger (view self.old)) (ledger (view self.new)) }
        ensures exact { result ≡ read_answer at (view self.old) }
        ensures after { view self.new ≡ view self.old }
    {
        if self.gone {
            return Err(Fault::PowerGone(at));
        }
        self.shown(at).ok_or(Fault::NoSuchBlock(at))
    }

    fn write(&mut self, at: BlockNo, bytes: &[u8; 512]) -> Result<(), Fault>
        ensures answer { Write at bytes.now result (ledger (view self.old)) (ledger (view self.new)) }
        ensures exact { result ≡ write_answer tt at (view self.old) }
        ensures after { view self.new ≡ write_after (record { block = at; bytes = bytes.now }) (view self.old) }
    {
        if self.gone {
            return Err(Fault::PowerGone(at));
        }
        if at.0 >= self.blocks() {
            return Err(Fault::NoSuchBlock(at));
        }
        let put = Put {
            block: at,
            bytes: *bytes,
        };
        if self.left == Some(0) {
            self.gone = true;
            if self.last == LastWrite::MayStand {
                self.note(put);
            }
            return Err(Fault::PowerGone(at));
        }
        if let Some(left) = &mut self.left {
            *left -= 1;
        }
        self.note(put);
        Ok(())
    }

    fn sync(&mut self) -> Result<Synced, Fault>
        ensures answer { Sync result (ledger (view self.old)) (ledger (view self.new)) }
        ensures exact { result ≡ sync_answer (view self.old) }
        ensures after { view self.new ≡ sync_after (view self.old) }
    {
        if self.gone {
            return Err(Fault::PowerGone(WHOLE));
        }
        if self.unsure {
            return Ok(Synced::Unsure);
        }
        self.settle();
        Ok(Synced::Settled)
    }
}

// After a cut no fuse is set.
impl PowerCut for Ledger {
    fn cut(&mut self, landing: &[u16])
        ensures answer { Cut (ledger (view self.old)) (ledger (view self.new)) }
        ensures exact { CutLeft landing.now (view self.old) (view self.new) }
    {
        self.land_all(landing);
        self.log.clear();
        self.left = None;
        self.gone = false;
    }

    fn set_trouble(&mut self, trouble: &Trouble)
        ensures answer { ledger (view self.new) ≡ ledger (view self.old) }
        ensures exact { view self.new ≡ with_unsure (with_last (with_left (view self.old) trouble.now.left) trouble.now.last) trouble.now.unsure }
    {
        self.set_fuse(trouble.left);
        self.set_last(trouble.last);
        self.set_unsure(trouble.unsure);
    }
}

#[cfg(test)]
mod tests {
    use super::*;
    use std::test::Fail;

    #[test]
    fn a_cut_keeps_the_old_or_takes_the_new(rt: HostRuntime) -> Result<(), Fail> {
        let mut card = Ledger::new(rt.alloc(), 2, 4)?;
        assert_eq!(rt; card.write(BlockNo(1), &[7; 512]), Ok(()));
        card.cut(&[0]);
        assert_eq!(rt; card.shown(BlockNo(1)), Some([0; 512]));
        assert_eq!(rt; card.write(BlockNo(1), &[8; 512]), Ok(()));
        card.cut(&[5, 1]);
        assert_eq!(rt; card.shown(BlockNo(1)), Some([8; 512]));
        assert_eq!(rt; card.shown(BlockNo(0)), Some([0; 512]));
        Ok(())
    }

    #[test]
    fn the_write_that_takes_the_power_may_stand(rt: HostRuntime) -> Result<(), Fail> {
        let mut card = Ledger::new(rt.alloc(), 2, 4)?;
        card.set_fuse(Some(1));
        card.set_last(LastWrite::MayStand);
        assert_eq!(rt; card.write(BlockNo(0), &[3; 512]), Ok(()));
        assert_eq!(rt;
            card.write(BlockNo(1), &[9; 512]),
            Err(Fault::PowerGone(BlockNo(1)))
        );
        assert_eq!(rt; card.sync(), Err(Fault::PowerGone(WHOLE)));
        card.cut(&[0, 1]);
        assert_eq!(rt; card.shown(BlockNo(0)), Some([0; 512]));
        assert_eq!(rt; card.shown(BlockNo(1)), Some([9; 512]));
        Ok(())
    }
}
