// The lines of the two lists.
ghost use Rattle.std.specs.Prelude.{◌≡◌, ℕ, ◌<◌, ◌≤◌, List, length, take, MatchOption};
ghost use Rattle.base.specs.declared.owner.Handle.{Handle};
ghost use Rattle.listing.specs.Lines.{entry_line, name_field};

use base::number::{Identity, LeafNo, SlotNo};
use base::owner::Handle;

// An entry of a folder: the first `length` bytes of `name`, and the child that it leads to.
// Kept: lines lie in the caller's slice, with no heap, so the name is an array with its length.
#[derive(Clone, Copy, PartialEq, Eq, Debug)]
pub struct EntryLine {
    pub name: [u8; 24],
    pub length: u8,
    pub slot: SlotNo,
    pub identity: Identity,
}

// A leaf that is not good.
#[derive(Clone, Copy, PartialEq, Eq, Debug)]
pub struct DamageLine {
    pub slot: SlotNo,
    pub leaf: LeafNo,
}

// A line that is all zero, for lines that power gone leaves.
pub const NO_ENTRY: EntryLine = EntryLine {
    name: [0; 24],
    length: 0,
    slot: SlotNo(0),
    identity: Identity(0),
};

pub const NO_DAMAGE: DamageLine = DamageLine {
    slot: SlotNo(0),
    leaf: LeafNo(0),
};

fn name_field(name: &[u8]) -> [u8; 24]
    requires { length name.now ≤ 24 }
    ensures { result ≡ name_field name.now }
{
    let mut all = [0; 24];
    all[0..name.len()].copy_from_slice(name);
    all
}

impl EntryLine {
    // None where the name has more than 24 bytes.
    pub fn new(name: &[u8], child: &Handle) -> Option<EntryLine>
        ensures { MatchOption result (24 < length name.now) (λ l. (length name.now ≤ 24) × (l ≡ entry_line name.now child.now)) }
    {
        if name.len() > 24 {
            return None;
        }
        Some(EntryLine {
            name: name_field(name),
            length: name.len() as u8,
            slot: child.slot,
            identity: child.identity,
        })
    }

    // The name; all 24 bytes where `length` says more.
    pub fn name(&self) -> &[u8]
        ensures bytes { result.now ≡ take self.now.length self.now.name }
        ensures given { (name : List ℕ) (child : Handle) → self.now ≡ entry_line name child → result.now ≡ name }
    {
        &self.name[0..(self.length as usize).min(24)]
    }
}
