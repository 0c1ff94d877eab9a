// Parts of a block.
ghost use Rattle.std.specs.Prelude.{◌≡◌, ◌+◌, ◌-◌, ◌≤◌, ◌++◌, length};
ghost use Rattle.layout.specs.Format.{padded, slot_byte};
ghost use Rattle.layout.specs.Sizes.{geometry};
ghost use Rattle.encode.specs.Heads.{cover_head, slot_head_bytes, body_byte, body_head_bytes, entry_head_bytes};

use base::number::Identity;
use base::owner::{Back, Handle, Kind};

// Kept: these two are rows of the format's table of first bytes; one function would take a flag for slot or body.
fn slot_byte(kind: Kind) -> u8
    ensures { result ≡ slot_byte kind }
{
    match kind {
        Kind::File => 2,
        Kind::Folder => 3,
    }
}

fn body_byte(kind: Kind) -> u8
    ensures { result ≡ body_byte kind }
{
    match kind {
        Kind::File => 4,
        Kind::Folder => 5,
    }
}

pub(crate) fn cover_head(blocks: u16, slots: u16) -> [u8; 6]
    ensures { result ≡ cover_head (geometry blocks slots) }
{
    let [n0, n1] = blocks.to_le_bytes();
    let [s0, s1] = slots.to_le_bytes();
    [1, 1, n0, n1, s0, s1]
}

pub(crate) fn slot_head(kind: Kind, count: u16, identity: Identity, parent: &Handle) -> [u8; 16]
    ensures { result ≡ slot_head_bytes kind count identity.0 parent.now }
{
    let [c0, c1] = count.to_le_bytes();
    let [i0, i1, i2, i3] = identity.0.to_le_bytes();
    let [p0, p1, p2, p3] = parent.identity.0.to_le_bytes();
    let [s0, s1] = parent.slot.0.to_le_bytes();
    let k = slot_byte(kind);
    [k, 0, c0, c1, i0, i1, i2, i3, p0, p1, p2, p3, s0, s1, 0, 0]
}

pub(crate) fn body_head(kind: Kind, back: &Back, used: u16) -> [u8; 16]
    ensures { result ≡ body_head_bytes (body_byte kind) back.now used }
{
    let [s0, s1] = back.owner.slot.0.to_le_bytes();
    let [i0, i1, i2, i3] = back.owner.identity.0.to_le_bytes();
    let [l0, l1] = back.leaf.0.to_le_bytes();
    let [u0, u1] = used.to_le_bytes();
    let k = body_byte(kind);
    [k, 0, s0, s1, i0, i1, i2, i3, l0, l1, u0, u1, 0, 0, 0, 0]
}

pub(crate) fn entry_head(length: u8, child: &Handle) -> [u8; 8]
    ensures { result ≡ entry_head_bytes length child.now }
{
    let [s0, s1] = child.slot.0.to_le_bytes();
    let [i0, i1, i2, i3] = child.identity.0.to_le_bytes();
    [length, 0, s0, s1, i0, i1, i2, i3]
}

// A head, what follows it, and zeros to the end.
pub(crate) fn fill<const N: usize>(head: &[u8], rest: &[u8]) -> [u8; N]
    requires { length head.now + length rest.now ≤ N }
    ensures { result ≡ head.now ++ padded (N - length head.now) rest.now }
{
    let mut all = [0; N];
    let (front, back) = all.split_at_mut(head.len());
    front.copy_from_slice(head);
    back[0..rest.len()].copy_from_slice(rest);
    all
}
