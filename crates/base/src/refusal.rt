// Why a call was refused. Each case has one number and one layer, and carries the place that its number tells.
ghost use Rattle.std.specs.Prelude.{◌≡◌, ◌==◌};
ghost use Rattle.base.specs.Refusals.{number_of, layer_of, place_of};

use crate::number::{BlockNo, LeafNo, SlotNo};

// The layer that a refusal speaks of.
#[derive(Clone, Copy, PartialEq, Eq, Debug)]
pub enum Layer {
    Device,
    Card,
    File,
}

#[derive(Clone, Copy, PartialEq, Eq, Debug)]
pub enum Refusal {
    // 1: the device has no power. The block called, or 65535 for a sync.
    PowerGone(BlockNo),
    // 2: a sync could not say whether everything has landed.
    SyncUnsure,
    // 3: the cover (block 0) or the root (block 1) is bad. That block.
    BadCard(BlockNo),
    // 4: the device has fewer blocks than the card. The card's block count.
    SmallDevice(u16),
    // 5: the handle fits no slot. The slot given.
    NoSuchHandle(SlotNo),
    // 6: a file where a folder is wanted, or the reverse. Its slot.
    WrongKind(SlotNo),
    // 7: the leaf, or the length to shorten to, is past the end. The number given.
    NoSuchLeaf(LeafNo),
    // 8: the leaf's body does not agree with its slot. The body's block.
    LeafNotGood(BlockNo),
    // 9: no sound entry has the name. The folder's slot.
    NoSuchName(SlotNo),
    // 10: the name is taken. The slot of the child that has it.
    NameTaken(SlotNo),
    // 11: not a name. Its length.
    BadName(usize),
    // 12: more than 496 bytes to write, or less than 496 to read into. The length.
    BadLength(usize),
    // 13: no body is free. The slot that was to grow.
    NoFreeBody(SlotNo),
    // 14: no slot is free. The card's slot count.
    NoFreeSlot(u16),
    // 15: the folder has 64 leaves and no place. Its slot.
    FolderFull(SlotNo),
    // 16: the highest identity has been given.
    IdentitiesSpent,
    // 17: the folder to remove has sound entries. Its slot.
    FolderNotEmpty(SlotNo),
    // 18: the block count or the slot count is outside its limits. The block count given.
    BadLimits(u16),
    // 19: the device has no such block. The block called.
    NoSuchBlock(BlockNo),
}

impl Refusal {
    pub fn number(&self) -> u8
        ensures { result ≡ number_of self.now }
    {
        match self {
            Refusal::PowerGone(_) => 1,
            Refusal::SyncUnsure => 2,
            Refusal::BadCard(_) => 3,
            Refusal::SmallDevice(_) => 4,
            Refusal::NoSuchHandle(_) => 5,
            Refusal::WrongKind(_) => 6,
            Refusal::NoSuchLeaf(_) => 7,
            Refusal::LeafNotGood(_) => 8,
            Refusal::NoSuchName(_) => 9,
            Refusal::NameTaken(_) => 10,
            Refusal::BadName(_) => 11,
            Refusal::BadLength(_) => 12,
            Refusal::NoFreeBody(_) => 13,
            Refusal::NoFreeSlot(_) => 14,
            Refusal::FolderFull(_) => 15,
            Refusal::IdentitiesSpent => 16,
            Refusal::FolderNotEmpty(_) => 17,
            Refusal::BadLimits(_) => 18,
            Refusal::NoSuchBlock(_) => 19,
        }
    }

    // Whether the device has no power: a card keeps this refusal and answers each later call with it.
    pub fn is_power_gone(&self) -> bool
        ensures { result ≡ (number_of self.now == 1) }
    {
        matches!(self, Refusal::PowerGone(_))
    }

    pub fn layer(&self) -> Layer
        ensures { result ≡ layer_of self.now }
    {
        match self {
            Refusal::PowerGone(_) | Refusal::SyncUnsure | Refusal::NoSuchBlock(_) => Layer::Device,
            Refusal::BadCard(_)
            | Refusal::SmallDevice(_)
            | Refusal::NoFreeSlot(_)
            | Refusal::IdentitiesSpent
            | Refusal::BadLimits(_) => Layer::Card,
            _ => Layer::File,
        }
    }

    pub fn place(&self) -> u64
        ensures { result ≡ place_of self.now }
    {
        match self {
            Refusal::SyncUnsure => 65535,
            Refusal::IdentitiesSpent => 0,
            Refusal::PowerGone(b)
            | Refusal::BadCard(b)
            | Refusal::LeafNotGood(b)
            | Refusal::NoSuchBlock(b) => b.0 as u64,
            Refusal::NoSuchHandle(s)
            | Refusal::WrongKind(s)
            | Refusal::NoSuchName(s)
            | Refusal::NameTaken(s)
            | Refusal::NoFreeBody(s)
            | Refusal::FolderFull(s)
            | Refusal::FolderNotEmpty(s) => s.0 as u64,
            Refusal::NoSuchLeaf(k) => k.0 as u64,
            Refusal::SmallDevice(n) | Refusal::NoFreeSlot(n) | Refusal::BadLimits(n) => *n as u64,
            Refusal::BadName(n) | Refusal::BadLength(n) => *n as u64,
        }
    }
}

// Why a path was refused: the refusal met below, whole, and the component at which it was met, from 0.
#[derive(Clone, Copy, PartialEq, Eq, Debug)]
pub struct PathRefusal {
    pub lower: Refusal,
    pub component: usize,
}
