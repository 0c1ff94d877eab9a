// The block parser, by slice patterns.
ghost use Rattle.std.specs.Prelude.{◌≡◌, length, MatchOption, ◌≢◌, slice_index};
ghost use Rattle.layout.specs.Format.{all_bodies, cover, ill_formed, cover_of, slot_of, by_kind, parse as parsed};
ghost use Rattle.layout.specs.Sizes.{sizes, region_view};
ghost use Rattle.layout.specs.Head.{body_of, slot_head, body_head, slot_head_fits, body_head_fits, slot_by, body_by};
ghost use Rattle.layout.specs.Laws.{Writable};
ghost use Rattle.layout.specs.View.{view, all_numbers, Sized};

use crate::block::{Block, Body, FolderBody, Slot};
use crate::geometry::Geometry;
use crate::number::{number16, number32};
use crate::region::Region;
use base::number::{BlockNo, Identity, LeafNo, SlotNo};
use base::owner::{Back, Handle, Kind};

// The named bytes of a slot.
#[derive(Clone, Copy)]
struct SlotHead {
    count: u16,
    identity: Identity,
    parent: Handle,
}

// The named bytes of a body.
#[derive(Clone, Copy)]
struct BodyHead {
    back: Back,
    used: u16,
}

// Kept: a slot and a body name other fields at other places; one function would have to choose at each of them.
fn slot_head(count: [u8; 2], identity: [u8; 4], parent: [u8; 4], slot: [u8; 2]) -> SlotHead
    ensures { result ≡ slot_head count identity parent slot }
{
    SlotHead {
        count: number16(count),
        identity: Identity(number32(identity)),
        parent: Handle {
            slot: SlotNo(number16(slot)),
            identity: Identity(number32(parent)),
        },
    }
}

fn body_head(slot: [u8; 2], identity: [u8; 4], leaf: [u8; 2], used: [u8; 2]) -> BodyHead
    ensures { result ≡ body_head slot identity leaf used }
{
    BodyHead {
        back: Back {
            owner: Handle {
                slot: SlotNo(number16(slot)),
                identity: Identity(number32(identity)),
            },
            leaf: LeafNo(number16(leaf)),
        },
        used: number16(used),
    }
}

// Whether each of the numbers, two bytes each, is that of a body.
fn numbers_fit(g: &Geometry, numbers: &[u8]) -> bool
    ensures { result ≡ all_bodies (sizes g.now) (all_numbers numbers.now) }
{
    let (pairs, _) = numbers.as_chunks::<2>();
    for pair in pairs {
        if !g.is_body(BlockNo(number16(*pair))) {
            return false;
        }
    }
    true
}

fn slot_head_fits(g: &Geometry, head: &SlotHead) -> bool
    ensures { result ≡ slot_head_fits (sizes g.now) head.now }
{
    head.count <= 64
        && 1 <= head.identity.0
        && 1 <= head.parent.identity.0
        && head.parent.slot.0 < g.slots
}

fn body_head_fits(g: &Geometry, head: &BodyHead) -> bool
    ensures { result ≡ body_head_fits (sizes g.now) head.now }
{
    head.back.owner.slot.0 < g.slots && 1 <= head.back.owner.identity.0 && head.back.leaf.0 < 64
}

fn slot_after<'a>(g: &Geometry, kind: Kind, head: SlotHead, rest: &'a [u8]) -> Block<'a>
    requires { length rest.now ≡ 496 }
    ensures means { view result ≡ slot_by (sizes g.now) kind head rest.now }
    ensures sized { Sized result }
{
    if !slot_head_fits(g, &head) {
        return Block::IllFormed;
    }
    let numbers = &rest[0..2 * head.count as usize];
    if !numbers_fit(g, numbers) {
        return Block::IllFormed;
    }
    let slot = Slot {
        identity: head.identity,
        parent: head.parent,
        numbers,
    };
    match kind {
        Kind::File => Block::FileSlot(slot),
        Kind::Folder => Block::FolderSlot(slot),
    }
}

fn body_after<'a>(g: &Geometry, kind: Kind, head: BodyHead, rest: &'a [u8]) -> Block<'a>
    requires { length rest.now ≡ 496 }
    ensures means { view result ≡ body_by (sizes g.now) kind head rest.now }
    ensures sized { Sized result }
{
    if !body_head_fits(g, &head) {
        return Block::IllFormed;
    }
    let back = head.back;
    match kind {
        Kind::File if head.used <= 496 => Block::FileBody(Body {
            back,
            payload: &rest[0..head.used as usize],
        }),
        Kind::Folder if head.used == 480 => Block::FolderBody(FolderBody {
            back,
            payload: &rest[0..480],
        }),
        _ => Block::IllFormed,
    }
}

// The geometry that a cover tells; None where it is no cover.
pub fn parse_cover(block: &[u8; 512]) -> Option<Geometry>
    ensures { MatchOption result (cover_of block.now ≡ ill_formed) (λ g. cover_of block.now ≡ cover (sizes g)) }
{
    match block {
        [1, 1, n0, n1, s0, s1, ..] => Geometry::new(number16([*n0, *n1]), number16([*s0, *s1])),
        _ => None,
    }
}

fn any_cover<'a>(block: &[u8; 512]) -> Block<'a>
    ensures means { view result ≡ cover_of block.now }
    ensures sized { Sized result }
{
    match parse_cover(block) {
        Some(g) => Block::Cover {
            blocks: g.blocks,
            slots: g.slots,
        },
        None => Block::IllFormed,
    }
}

// Kept: as for the heads: the pattern is the layout of a slot, the one below is that of a body.
fn any_slot<'a>(g: &Geometry, kind: Kind, block: &'a [u8; 512]) -> Block<'a>
    ensures means { view result ≡ slot_of (sizes g.now) kind block.now }
    ensures sized { Sized result }
{
    let [_, _, c0, c1, i0, i1, i2, i3, p0, p1, p2, p3, s0, s1, ..] = block;
    let identity = [*i0, *i1, *i2, *i3];
    let head = slot_head([*c0, *c1], identity, [*p0, *p1, *p2, *p3], [*s0, *s1]);
    slot_after(g, kind, head, &block[16..])
}

fn any_body<'a>(g: &Geometry, kind: Kind, block: &'a [u8; 512]) -> Block<'a>
    ensures means { view result ≡ body_of (sizes g.now) kind block.now }
    ensures sized { Sized result }
{
    let [_, _, s0, s1, i0, i1, i2, i3, l0, l1, u0, u1, ..] = block;
    let head = body_head([*s0, *s1], [*i0, *i1, *i2, *i3], [*l0, *l1], [*u0, *u1]);
    body_after(g, kind, head, &block[16..])
}

// What a block of this region holds: its first byte says which kind it is.
fn in_region<'a>(g: &Geometry, region: Region, block: &'a [u8; 512]) -> Block<'a>
    ensures means { view result ≡ by_kind (sizes g.now) (region_view region) (slice_index block.now 0) block.now }
    ensures sized { Sized result }
{
    match (region, block[0]) {
        (Region::Cover, _) => any_cover(block),
        (Region::Slots | Region::Bodies, 0) => Block::Blank,
        (Region::Slots, 2) => any_slot(g, Kind::File, block),
        (Region::Slots, 3) => any_slot(g, Kind::Folder, block),
        (Region::Bodies, 4) => any_body(g, Kind::File, block),
        (Region::Bodies, 5) => any_body(g, Kind::Folder, block),
        _ => Block::IllFormed,
    }
}

// What block `at` holds, by its bytes.
pub fn parse<'a>(g: &Geometry, at: BlockNo, block: &'a [u8; 512]) -> Block<'a>
    ensures means { view result ≡ parsed (sizes g.now) at.0 block.now }
    ensures ranged { (view result ≢ ill_formed) → Writable (sizes g.now) at.0 (view result) }
    ensures sized { Sized result }
{
    in_region(g, g.region(at), block)
}
