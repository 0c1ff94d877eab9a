// The entries of a folder's leaf: 15 cells of 32 bytes.
ghost use Rattle.std.specs.Prelude.{◌≡◌, ◌/◌, ◌<◌, ◌≤◌, [], length, MatchOption, slice_index_or};
ghost use Rattle.layout.specs.Format.{cells_of, plain_bytes, good_name, entry_of};
ghost use Rattle.layout.specs.Sizes.{sizes};
ghost use Rattle.layout.specs.Head.{cells};
ghost use Rattle.layout.specs.Laws.{EntryRanged};
ghost use Rattle.layout.specs.Entries.{all_zero, used_state, entry_state, leads};
ghost use Rattle.entries.specs.View.{entry_child, entry_head_fits, cell_view};

use base::number::{Identity, SlotNo};
use base::owner::Handle;
use layout::geometry::Geometry;
use layout::number::{number16, number32};

// A well-formed entry (a directory entry): a name, and the child that it leads to.
#[derive(Clone, Copy, PartialEq, Eq, Debug)]
pub struct Entry<'a> {
    pub child: Handle,
    pub name: &'a [u8],
}

// A cell once read.
#[derive(Clone, Copy, PartialEq, Eq, Debug)]
pub enum Cell<'a> {
    Blank,
    Used(Entry<'a>),
    IllFormed,
}

// No byte is 0 or '/'.
fn is_plain(bytes: &[u8]) -> bool
    ensures { result ≡ plain_bytes bytes.now }
{
    !bytes.contains(&0) && !bytes.contains(&b'/')
}

// Whether a file or folder may have this name: 1 to 24 bytes, none of them 0 or '/'.
pub fn name_fits(name: &[u8]) -> bool
    ensures { result ≡ good_name name.now }
{
    1 <= name.len() && name.len() <= 24 && is_plain(name)
}

fn read_child(slot: [u8; 2], identity: [u8; 4]) -> Handle
    ensures { result ≡ entry_child slot identity }
{
    Handle {
        slot: SlotNo(number16(slot)),
        identity: Identity(number32(identity)),
    }
}

fn entry_head_fits(g: &Geometry, length: u8, child: &Handle) -> bool
    ensures { result ≡ entry_head_fits (sizes g.now) length child.now }
{
    1 <= length
        && length <= 24
        && 1 <= child.slot.0
        && child.slot.0 < g.slots
        && 1 <= child.identity.0
}

fn used_cell<'a>(g: &Geometry, bytes: &'a [u8; 32]) -> Cell<'a>
    ensures { cell_view result ≡ used_state (sizes g.now) bytes.now }
{
    let [length, _, s0, s1, i0, i1, i2, i3, ..] = bytes;
    let child = read_child([*s0, *s1], [*i0, *i1, *i2, *i3]);
    if !entry_head_fits(g, *length, &child) {
        return Cell::IllFormed;
    }
    let name = &bytes[8..8 + *length as usize];
    if !is_plain(name) {
        return Cell::IllFormed;
    }
    Cell::Used(Entry { child, name })
}

// What the 32 bytes of a cell hold; anything but 32 bytes is ill formed.
pub fn parse_cell<'a>(g: &Geometry, bytes: &'a [u8]) -> Cell<'a>
    ensures state { cell_view result ≡ entry_state (sizes g.now) bytes.now }
    ensures ranged { EntryRanged (sizes g.now) (cell_view result) }
    ensures leads { length bytes.now ≡ 32 → leads (cell_view result) ≡ entry_of (sizes g.now) bytes.now }
{
    let Some(cell) = bytes.as_array::<32>() else {
        return Cell::IllFormed;
    };
    if *cell == [0; 32] {
        return Cell::Blank;
    }
    used_cell(g, cell)
}

// The cells of a folder's leaf, of which the payload has 480 bytes and so 15 cells. Of any other length: as many whole
// cells as there are, without the bytes that are left.
pub fn cells(payload: &[u8]) -> &[[u8; 32]]
    ensures whole { result.now ≡ cells_of (length payload.now / 32) payload.now }
    ensures leaf { length payload.now ≡ 480 → result.now ≡ cells payload.now }
{
    let (cells, _) = payload.as_chunks::<32>();
    cells
}

// The bytes of a cell of a folder's leaf, which has 480; None from place 15 on.
pub fn cell_bytes<'a>(payload: &'a [u8], place: usize) -> Option<&'a [u8]>
    ensures { MatchOption result (length payload.now ≡ 480 → 15 ≤ place) (λ c. (length payload.now ≡ 480) × (place < 15) × (length c.now ≡ 32) × (c.now ≡ slice_index_or (cells payload.now) place [])) }
{
    if payload.len() != 480 {
        return None;
    }
    Some(cells(payload).get(place)?)
}
