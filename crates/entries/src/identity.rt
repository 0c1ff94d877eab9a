// The highest identity that a block tells.
ghost use Rattle.std.specs.Prelude.{◌≡◌, ℕ, ◌≤◌, max, ◌⊎◌};
ghost use Rattle.layout.specs.Format.{entry_of, parse as parsed};
ghost use Rattle.layout.specs.Sizes.{sizes};
ghost use Rattle.layout.specs.Head.{cells};
ghost use Rattle.layout.specs.View.{view};
ghost use Rattle.layout.specs.Identities.{highest_in, entry_told, told, Tells};

use crate::entry::{Cell, cells, parse_cell};
use base::number::{BlockNo, Identity};
use layout::block::{Block, FolderBody, parse};
use layout::geometry::Geometry;

// The identity of the child of a cell's entry, or 0.
fn told_by(g: &Geometry, cell: &[u8; 32]) -> u32
    ensures { result ≡ entry_told (entry_of (sizes g.now) cell.now) }
{
    match parse_cell(g, cell) {
        Cell::Used(e) => e.child.identity.0,
        Cell::Blank | Cell::IllFormed => 0,
    }
}

// The highest among the children of the well-formed entries of a folder's leaf.
fn highest_in(g: &Geometry, body: &FolderBody) -> u32
    ensures { result ≡ highest_in (sizes g.now) (cells body.now.payload.now) }
{
    let mut high: u32 = 0;
    for cell in cells(body.payload) {
        high = high.max(told_by(g, cell));
    }
    high
}

fn tell(g: &Geometry, block: &Block) -> u32
    ensures { result ≡ told (sizes g.now) (view block.now) }
{
    match block {
        Block::FileSlot(s) | Block::FolderSlot(s) => s.identity.0.max(s.parent.identity.0),
        Block::FileBody(b) => b.back.owner.identity.0,
        Block::FolderBody(b) => b.back.owner.identity.0.max(highest_in(g, b)),
        Block::Blank | Block::Cover { .. } | Block::IllFormed => 0,
    }
}

// The highest identity that block `at` tells, or 0: a slot's own and its parent's, a body's owner's, an entry's child's.
pub fn highest_told(g: &Geometry, at: BlockNo, block: &[u8; 512]) -> Identity
    ensures told { result.0 ≡ told (sizes g.now) (parsed (sizes g.now) at.0 block.now) }
    ensures above { (i : ℕ) → Tells (sizes g.now) (parsed (sizes g.now) at.0 block.now) i → i ≤ result.0 }
    ensures attained { (result.0 ≡ 0) ⊎ Tells (sizes g.now) (parsed (sizes g.now) at.0 block.now) result.0 }
{
    Identity(tell(g, &parse(g, at, block)))
}
