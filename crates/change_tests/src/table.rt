// A table of what is asked of a surveyed card: what it replies, and which blocks show other bytes after.
use base::number::{BlockNo, LeafNo};
use base::owner::{Handle, Kind};
use base::refusal::{Layer, PathRefusal, Refusal};
use card::opened::open;
use card::readable::Readable;
use card::surveyed::Surveyed;
use device::Device;
use format::format;
use listing::line::NO_DAMAGE;
use power::PowerCut;
use power::ledger::Ledger;
use std::alloc::Global;
use std::process::Abort;
use std::test::Fail;

#[derive(Clone, Copy)]
pub enum Ask<'a> {
    Create(Kind, Handle, &'a [u8]),
    Write(Handle, u16, &'a [u8]),
    Shorten(Handle, u16),
    Remove(Handle, &'a [u8]),
    Sync,
    Find(Handle, &'a [u8]),
    Path(&'a [u8]),
    Read(Handle, u16),
    Status(Handle),
    Damage,
    Space,
}

#[derive(Clone, Copy, PartialEq, Eq, Debug)]
pub enum Reply {
    Done,
    At(Handle),
    // How long a leaf is, and its first three bytes; zeros where it has fewer.
    Leaf(usize, [u8; 3]),
    // Kind, leaf count and parent.
    Is(Kind, u16, Handle),
    // How many leaves are not good.
    Bad(usize),
    // How many bodies and how many slots are free.
    Free(u16, u16),
    // Number, layer and place.
    Refused(u8, Layer, u64),
    // The same of what a path met, and the component.
    Stopped(u8, Layer, u64, usize),
}

// What is asked, the reply, and the blocks that show other bytes after, in order.
pub type Row<'a> = (Ask<'a>, Reply, &'a [u16]);

fn refused(refusal: Refusal) -> Reply {
    Reply::Refused(refusal.number(), refusal.layer(), refusal.place())
}

fn stopped(refusal: PathRefusal) -> Reply {
    let lower = refusal.lower;
    Reply::Stopped(
        lower.number(),
        lower.layer(),
        lower.place(),
        refusal.component,
    )
}

fn done(answer: Result<(), Refusal>) -> Reply {
    answer.map_or_else(refused, |()| Reply::Done)
}

fn at(answer: Result<Handle, Refusal>) -> Reply {
    answer.map_or_else(refused, |handle| Reply::At(handle))
}

fn read<D: Device>(card: &mut Surveyed<D>, file: &Handle, leaf: u16) -> Reply {
    let mut buffer = [0; 496];
    match card.read(file, LeafNo(leaf), &mut buffer) {
        Ok(length) => Reply::Leaf(length, [buffer[0], buffer[1], buffer[2]]),
        Err(refusal) => refused(refusal),
    }
}

fn status<D: Device>(card: &mut Surveyed<D>, handle: &Handle) -> Reply {
    match card.status(handle) {
        Ok(status) => Reply::Is(status.kind, status.count, status.parent),
        Err(refusal) => refused(refusal),
    }
}

fn space<D: Device>(card: &Surveyed<D>) -> Reply {
    match card.space() {
        Ok(space) => Reply::Free(space.bodies, space.slots),
        Err(refusal) => refused(refusal),
    }
}

pub fn answer<D: Device>(card: &mut Surveyed<D>, ask: &Ask) -> Reply {
    match ask {
        Ask::Create(kind, folder, name) => at(card.create(*kind, folder, name)),
        Ask::Write(file, leaf, bytes) => done(card.write(file, LeafNo(*leaf), bytes)),
        Ask::Shorten(file, n) => done(card.shorten(file, LeafNo(*n))),
        Ask::Remove(folder, name) => done(card.remove(folder, name)),
        Ask::Sync => done(card.sync()),
        Ask::Find(folder, name) => at(card.find(folder, name)),
        Ask::Path(path) => card
            .path(path)
            .map_or_else(stopped, |handle| Reply::At(handle)),
        Ask::Read(file, leaf) => read(card, file, *leaf),
        Ask::Status(handle) => status(card, handle),
        Ask::Damage => card
            .damage(&mut [NO_DAMAGE; 4])
            .map_or_else(refused, |many| Reply::Bad(many)),
        Ask::Space => space(card),
    }
}

// What each block of the device shows.
pub fn shown(heap: Global, device: &Ledger) -> Result<Vec<[u8; 512]>, Fail> {
    let mut all = Vec::new(heap);
    for at in 0..u16::MAX {
        let Some(bytes) = device.shown(BlockNo(at)) else {
            break;
        };
        all.push(bytes)?;
    }
    Ok(all)
}

// The blocks that differ, in order.
pub fn differing(heap: Global, old: &[[u8; 512]], new: &[[u8; 512]]) -> Result<Vec<u16>, Fail> {
    let mut all = Vec::new(heap);
    for (at, (a, b)) in (0..u16::MAX).zip(old.iter().zip(new)) {
        if a != b {
            all.push(at)?;
        }
    }
    Ok(all)
}

// Each row is asked in turn, and is as it says.
pub fn holds(
    rt: &impl Abort,
    heap: Global,
    card: &mut Surveyed<Ledger>,
    rows: &[Row],
) -> Result<(), Fail> {
    for (at, (ask, due, blocks)) in rows.iter().enumerate() {
        let old = shown(heap, card.device())?;
        assert_eq!(rt; answer(card, ask), *due, "row {at}");
        let new = shown(heap, card.device())?;
        let changed = differing(heap, &old, &new)?;
        assert_eq!(rt; changed.as_slice(), *blocks, "blocks of row {at}");
    }
    Ok(())
}

// Whether a block shows these bytes at its front.
pub fn begins(card: &Surveyed<Ledger>, at: u16, bytes: &[u8]) -> bool {
    match card.device().shown(BlockNo(at)) {
        Some(block) => block.starts_with(bytes),
        None => false,
    }
}

// A new card of so many blocks and slots, surveyed.
pub fn new_card(heap: Global, blocks: u16, slots: u16) -> Result<Surveyed<Ledger>, Fail> {
    let mut device = Ledger::new(heap, blocks, 64)?;
    format(&mut device, blocks, slots)?;
    Ok(open(device).end())
}

// An image on a device that keeps what may stand.
pub fn on_device(heap: Global, image: &[u8]) -> Result<Ledger, Fail> {
    let (blocks, _) = image.as_chunks::<512>();
    let count = u16::try_from(blocks.len())?;
    let mut device = Ledger::new(heap, count, 64)?;
    for (at, bytes) in (0..count).zip(blocks) {
        device.write(BlockNo(at), bytes)?;
    }
    device.sync()?;
    Ok(device)
}

// What a cut leaves of a block: what had landed for sure, or the last of up to 11 writes since (27,720 is a multiple of
// every number up to 12).
pub const OLD: u16 = 0;

pub const NEW: u16 = 27719;

// The card after a cut, opened and surveyed anew.
pub fn after_cut(card: Surveyed<Ledger>, landing: &[u16]) -> Surveyed<Ledger> {
    open(card.cut(landing)).end()
}
