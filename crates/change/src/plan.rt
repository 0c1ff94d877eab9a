// The plan of an accepted call.
ghost use Rattle.std.specs.Prelude.{◌≤◌};

use base::number::{BlockNo, Identity, LeafNo};
use base::owner::Handle;
use device::put::Put;

// What a surveyed card keeps besides its marks: the highest identity, and the two cursors.
#[derive(Clone, Copy)]
pub struct Memory {
    pub highest: Identity,
    // Kept: `next_slot` and `next_body` of the definitions may be one past the last, where a SlotNo or BlockNo would name what is not.
    pub next_slot: u16,
    pub next_body: u16,
}

// The first `len` blocks are to be written, in this order; the card keeps `memory` after.
// Kept: an array and how many are used; a plan is Copy, which an ArrayVec is not.
#[derive(Clone, Copy)]
pub struct Plan {
    pub puts: [Put; 3],
    pub len: usize,
    pub memory: Memory,
    pub ghost few: { len ≤ 3 },
}

// A plan, with what the card needs to know of the change to mark it.
#[derive(Clone, Copy)]
pub struct Accepted<A> {
    pub plan: Plan,
    pub change: A,
}

// A new leaf of a file or folder, and its block.
#[derive(Clone, Copy)]
pub struct Gained {
    pub block: BlockNo,
    pub leaf: LeafNo,
}

// A new child, and the leaf that its folder gained.
#[derive(Clone, Copy)]
pub struct Created {
    pub child: Handle,
    pub gained: Option<Gained>,
}
