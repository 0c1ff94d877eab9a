// A block once read: one of the kinds, or ill formed. Slots and bodies borrow what follows their head from the block.
ghost use Rattle.std.specs.Prelude.{◌≡◌, ◌<◌, ◌≤◌, length, MatchOption, slice_index};

mod parsing;

pub use crate::block::parsing::{parse, parse_cover};
use crate::number::number16;
use base::number::{BlockNo, Identity, LeafNo};
use base::owner::{Back, Handle};

// A file's or folder's slot; `numbers` are the block numbers of its leaves, two bytes each.
#[derive(Clone, Copy, PartialEq, Eq, Debug)]
pub struct Slot<'a> {
    pub identity: Identity,
    pub parent: Handle,
    pub numbers: &'a [u8],
}

// A file's leaf: the bytes used.
#[derive(Clone, Copy, PartialEq, Eq, Debug)]
pub struct Body<'a> {
    pub back: Back,
    pub payload: &'a [u8],
}

// A folder's leaf: the 15 cells of its entries.
// Kept: a struct beside `Body`, since its type says how long the payload is, and a slice as the file's is.
#[derive(Clone, Copy, PartialEq, Eq, Debug)]
pub struct FolderBody<'a> {
    pub back: Back,
    pub payload: &'a [u8],
    pub ghost sized: { length payload.now ≡ 480 },
}

#[derive(Clone, Copy, PartialEq, Eq, Debug)]
pub enum Block<'a> {
    Blank,
    // Kept: the numbers as they stand in the block; `parse_cover` gives them as a Geometry.
    Cover { blocks: u16, slots: u16 },
    FileSlot(Slot<'a>),
    FolderSlot(Slot<'a>),
    FileBody(Body<'a>),
    FolderBody(FolderBody<'a>),
    IllFormed,
}

impl Slot<'_> {
    ghost use Rattle.layout.specs.View.{all_numbers};

    // How many leaves it has.
    pub fn count(&self) -> usize
        ensures { result ≡ length (all_numbers self.now.numbers.now) }
    {
        self.numbers.len() / 2
    }

    // The block of a leaf; None from the count on.
    pub fn number(&self, leaf: LeafNo) -> Option<BlockNo>
        ensures { MatchOption result (length (all_numbers self.now.numbers.now) ≤ leaf.0) (λ b. (leaf.0 < length (all_numbers self.now.numbers.now)) × (b.0 ≡ slice_index (all_numbers self.now.numbers.now) leaf.0)) }
    {
        let (pairs, _) = self.numbers.as_chunks::<2>();
        let pair = pairs.get(leaf.0 as usize)?;
        Some(BlockNo(number16(*pair)))
    }
}
