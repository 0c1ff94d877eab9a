// Four kinds of number. Each has a struct of its own, so that one never stands in for another.

// The number of a block of a device, from 0.
#[derive(Clone, Copy, Default, PartialEq, Eq, PartialOrd, Ord, Hash, Debug)]
pub struct BlockNo(pub u16);

// The number of a slot of a card, from 0: slot s lies in block 1 + s. A slot is what other file systems call an inode.
#[derive(Clone, Copy, PartialEq, Eq, PartialOrd, Ord, Hash, Debug)]
pub struct SlotNo(pub u16);

// The number of a leaf of a file or folder, from 0. A leaf is one block's worth of a file.
#[derive(Clone, Copy, PartialEq, Eq, PartialOrd, Ord, Hash, Debug)]
pub struct LeafNo(pub u16);

// The identity of a file or folder, from 1. A create takes the next one, so that a slot that is used again has another.
#[derive(Clone, Copy, PartialEq, Eq, PartialOrd, Ord, Hash, Debug)]
pub struct Identity(pub u32);
