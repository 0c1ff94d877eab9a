// The blocks that are written.
ghost use Rattle.std.specs.Prelude.{◌≡◌, ℕ, suc, ◌<◌, ◌≤◌, true, ◌∷◌, length, take, replicate, slice_index_or, slice_set};
ghost use Rattle.encode.specs.Heads.{plain, Begins};
ghost use Rattle.layout.specs.Format.{blank, blank_cell, good_name, cell as entry_cell, back, file_body, folder_body};
ghost use Rattle.layout.specs.Head.{cells};
ghost use Rattle.rule.specs.Agree.{number, count};
ghost use Rattle.rule.specs.Card.{block as block_no};
ghost use Rattle.rule.specs.Changing.{store, store_slot, with_numbers, cut_to, grown, new_slot};
ghost use Rattle.walk.specs.Copies.{copied};
ghost use Rattle.change.specs.Plans.{Planned};

use crate::plan::{Memory, Plan};
use crate::scan::Spot;
use base::number::{BlockNo, LeafNo, SlotNo};
use base::owner::{Back, Handle, Kind};
use device::put::Put;
use encode::block::{encode_blank, encode_file_body, encode_folder_change, encode_slot};
use encode::entry::encode_entry;
use walk::node::Node;
use walk::slot::SlotCopy;

// The number after. A card has no slot and no block 65535, so the sum is never cut short.
pub(crate) fn after(n: u16) -> u16
    ensures { n < 65535 → result ≡ suc n }
{
    n.saturating_add(1)
}

// The block of a slot.
// Kept: a public slot number takes all 16 bits and no type may take fewer, so clauses here begin with at.0 < 65535.
fn block_of(at: SlotNo) -> BlockNo
    ensures { at.0 < 65535 → result ≡ block_no (suc at.0) }
{
    BlockNo(after(at.0))
}

// The blocks of the leaves; 0 from the count on.
// Kept: an array of all 64, cut by its callers; an ArrayVec would owe room at each of the 64 pushes, and there is no heap.
fn numbers_of(slot: &SlotCopy) -> [BlockNo; 64]
    ensures { Begins (copied slot.now).numbers result 64 }
{
    let mut all = [BlockNo(0); 64];
    for (k, number) in all.iter_mut().enumerate() {
        *number = slot.number(LeafNo(k as u16));
    }
    all
}

// The slot with these numbers.
fn slot_put(at: SlotNo, slot: &SlotCopy, numbers: &[BlockNo]) -> Put
    requires { length numbers.now ≤ 64 }
    ensures { at.0 < 65535 → result ≡ store_slot at.0 (with_numbers (copied slot.now) (plain numbers.now)) }
{
    Put {
        block: block_of(at),
        bytes: encode_slot(slot.kind, slot.identity, &slot.parent, numbers).unwrap(),
    }
}

// The slot with its first n leaves.
pub(crate) fn cut_put(at: SlotNo, slot: &SlotCopy, n: u16) -> Put
    ensures { at.0 < 65535 → n ≤ count (copied slot.now) → n ≤ 64 → result ≡ store_slot at.0 (cut_to (copied slot.now) n) }
{
    let all = numbers_of(slot);
    let kept = (n as usize).min(64);
    slot_put(at, slot, &all[0..kept])
}

// The slot with one leaf more.
pub(crate) fn grown_put(at: SlotNo, slot: &SlotCopy, leaf: BlockNo) -> Put
    ensures { at.0 < 65535 → count (copied slot.now) < 64 → result ≡ store_slot at.0 (grown (copied slot.now) leaf.0) }
{
    let mut all = numbers_of(slot);
    let last = (slot.count as usize).min(63);
    all[last] = leaf;
    slot_put(at, slot, &all[0..last + 1])
}

// A leaf of a file, of at most 496 bytes; zeros for more.
pub(crate) fn file_put(at: BlockNo, back: &Back, bytes: &[u8]) -> Put
    ensures { length bytes.now ≤ 496 → result ≡ store at.0 (file_body back.now bytes.now) }
{
    Put {
        block: at,
        bytes: encode_file_body(back, bytes).unwrap_or([0; 512]),
    }
}

// A slot that is blank.
pub(crate) fn blank_put(at: SlotNo) -> Put
    ensures { at.0 < 65535 → result ≡ store (suc at.0) blank }
{
    Put {
        block: block_of(at),
        bytes: encode_blank(),
    }
}

// A leaf of a folder with another cell at one of its 15 places; zeros for a place beyond.
pub(crate) fn cell_put(folder: &Node, spot: &Spot, cell: &[u8; 32]) -> Put
    ensures { spot.now.place < 15 → result ≡ store (number (copied folder.now.slot) spot.now.leaf.0) (folder_body (back folder.now.handle spot.now.leaf.0) (slice_set (cells (take 480 spot.now.copy.bytes)) spot.now.place cell.now)) }
{
    let line = Back {
        owner: folder.handle,
        leaf: spot.leaf,
    };
    let change = encode_folder_change(&line, spot.copy.folder_bytes(), spot.place, cell);
    Put {
        block: folder.slot.number(spot.leaf),
        bytes: change.unwrap_or([0; 512]),
    }
}

// The slot of a new child, which has no leaves.
pub(crate) fn new_put(child: &Handle, kind: Kind, folder: &Handle) -> Put
    ensures { child.now.slot.0 < 65535 → result ≡ store_slot child.now.slot.0 (new_slot kind folder.now child.now.identity.0) }
{
    Put {
        block: block_of(child.slot),
        bytes: encode_slot(kind, child.identity, folder, &[]).unwrap(),
    }
}

// A new leaf of a folder, with one entry.
pub(crate) fn first_put(at: BlockNo, line: &Back, cell: &[u8; 32]) -> Put
    ensures { result ≡ store at.0 (folder_body line.now (cell.now ∷ replicate 14 blank_cell)) }
{
    Put {
        block: at,
        bytes: encode_folder_change(line, &[0; 480], 0, cell).unwrap(),
    }
}

// The entry of a child under a name; zeros for what is no name.
pub(crate) fn entry_cell(name: &[u8], child: &Handle) -> [u8; 32]
    ensures { good_name name.now ≡ true → result ≡ entry_cell name.now child.now }
{
    encode_entry(name, child).unwrap_or([0; 32])
}

// A place in a plan that is not used.
const NO_PUT: Put = Put {
    block: BlockNo(0),
    bytes: [0; 512],
};

// At most three blocks are written as one effect.
pub(crate) fn planned(puts: &[Put], memory: Memory) -> Plan
    requires { length puts.now ≤ 3 }
    ensures { Planned puts.now memory result }
{
    match puts {
        [] => Plan {
            puts: [NO_PUT, NO_PUT, NO_PUT],
            len: 0,
            memory,
        },
        [a] => Plan {
            puts: [*a, NO_PUT, NO_PUT],
            len: 1,
            memory,
        },
        [a, b] => Plan {
            puts: [*a, *b, NO_PUT],
            len: 2,
            memory,
        },
        [a, b, c, ..] => Plan {
            puts: [*a, *b, *c],
            len: 3,
            memory,
        },
    }
}
