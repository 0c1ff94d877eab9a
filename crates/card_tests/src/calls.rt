// The six reading calls, made one after another.
use crate::counting::Counting;
use base::number::LeafNo;
use base::owner::Handle;
use base::refusal::{PathRefusal, Refusal};
use card::inner::Core;
use card::opened::open;
use card::readable::Readable;
use device::Device;
use device::plain::Plain;
use listing::line::{NO_DAMAGE, NO_ENTRY};
use std::mem;
use walk::path::ROOT;

// Kept: refusals go by their numbers here, since those are what the page on refusals promises.
// The numbers of the refusals that find, path, list, status, damage and read meet, if they meet one.
pub type Numbers = [Option<u8>; 6];

fn number<A: Drop>(answer: Result<A, Refusal>) -> Option<u8> {
    answer.err().map(|refusal| refusal.number())
}

fn path_number(answer: Result<Handle, PathRefusal>) -> Option<u8> {
    answer.err().map(|refusal| refusal.lower.number())
}

pub fn refusals(image: &mut [u8], name: &[u8], path: &[u8], h: &Handle) -> Numbers {
    let mut card = open(Plain::new(image));
    let mut entries = [NO_ENTRY; 4];
    let mut damage = [NO_DAMAGE; 4];
    let mut buffer = [0u8; 496];
    [
        number(card.find(&ROOT, name)),
        path_number(card.path(path)),
        number(card.list(h, &mut entries)),
        number(card.status(h)),
        number(card.damage(&mut damage)),
        number(card.read(h, LeafNo(0), &mut buffer)),
    ]
}

// How many reads were counted; counts anew.
fn taken(card: &mut Core<Counting<Plain>>) -> u32 {
    mem::take(&mut card.device.tally).reads
}

// How many blocks open, find, path, list, status, damage and read have read.
pub fn reads(image: &mut [u8], name: &[u8], path: &[u8], h: &Handle, leaf: u16) -> [u32; 7] {
    let mut card = Core::open(Counting::new(Plain::new(image)));
    let mut entries = [NO_ENTRY; 4];
    let mut damage = [NO_DAMAGE; 4];
    let mut buffer = [0u8; 496];
    let open = taken(&mut card);
    let _ = card.find(&ROOT, name);
    let find = taken(&mut card);
    let _ = card.path(path);
    let walk = taken(&mut card);
    let _ = card.list(&ROOT, &mut entries);
    let list = taken(&mut card);
    let _ = card.status(h);
    let status = taken(&mut card);
    let _ = card.damage(&mut damage);
    let all = taken(&mut card);
    let _ = card.read(h, LeafNo(leaf), &mut buffer);
    [open, find, walk, list, status, all, taken(&mut card)]
}
