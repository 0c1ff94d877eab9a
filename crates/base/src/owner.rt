// Who owns what: handles and back lines.
use crate::number::{Identity, LeafNo, SlotNo};

// What a slot stands for.
#[derive(Clone, Copy, PartialEq, Eq, Debug)]
pub enum Kind {
    File,
    Folder,
}

// A file or folder: its slot, and the identity that tells it from what stood in that slot before.
#[derive(Clone, Copy, PartialEq, Eq, Debug)]
pub struct Handle {
    pub slot: SlotNo,
    pub identity: Identity,
}

// A body's back line (its back pointer): whose leaf it is, and which.
#[derive(Clone, Copy, PartialEq, Eq, Debug)]
pub struct Back {
    pub owner: Handle,
    pub leaf: LeafNo,
}
