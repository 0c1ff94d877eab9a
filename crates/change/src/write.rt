// The plan of a write.
ghost use Rattle.std.specs.Prelude.{◌<◌};
ghost use Rattle.device.specs.Model.{Model};
ghost use Rattle.rule.specs.Agree.{count};
ghost use Rattle.rule.specs.Changing.{write};
ghost use Rattle.walk.specs.Copies.{copied};
ghost use Rattle.walk.specs.Still.{Gives};
ghost use Rattle.change.specs.Plans.{card_view, Grounded, Decides, Writing, WritePlanned};

use crate::blocks::{after, file_put, grown_put, planned};
use crate::changing::read_changing;
use crate::known::Known;
use crate::plan::{Accepted, Gained, Memory};
use base::number::LeafNo;
use base::owner::{Back, Handle, Kind};
use base::refusal::Refusal;
use device::Device;
use walk::node::Node;

// A leaf below the count gets another body in the same block, if it is good.
fn replace_leaf(
    known: &Known,
    file: &Node,
    leaf: LeafNo,
    bytes: &[u8],
) -> Result<Accepted<Option<Gained>>, Refusal>
    ensures { (m : Model) → Writing known.now.geometry m known.now.marks.now file.now.handle file.now.slot bytes.now → leaf.0 < count (copied file.now.slot) → Decides result (write file.now.handle leaf.0 bytes.now (card_view known.now.geometry known.now.memory) m.shown) (WritePlanned known.now.geometry m known.now.memory file.now.handle leaf.0 bytes.now) }
{
    let back = Back {
        owner: file.handle,
        leaf,
    };
    let at = file.slot.number(leaf);
    if !known.marks.is_leaf(at, &back) {
        return Err(Refusal::LeafNotGood(at));
    }
    let body = file_put(at, &back, bytes);
    Ok(Accepted {
        plan: planned(&[body], known.memory),
        change: None,
    })
}

// At the count a leaf is added, in a free body.
fn append_leaf(
    known: &Known,
    file: &Node,
    bytes: &[u8],
) -> Result<Accepted<Option<Gained>>, Refusal>
    ensures { (m : Model) → Writing known.now.geometry m known.now.marks.now file.now.handle file.now.slot bytes.now → count (copied file.now.slot) < 64 → Decides result (write file.now.handle (count (copied file.now.slot)) bytes.now (card_view known.now.geometry known.now.memory) m.shown) (WritePlanned known.now.geometry m known.now.memory file.now.handle (count (copied file.now.slot)) bytes.now) }
{
    let Some(block) = known
        .marks
        .free_body(&known.geometry, known.memory.next_body)
    else {
        return Err(Refusal::NoFreeBody(file.handle.slot));
    };
    let leaf = LeafNo(file.slot.count);
    let back = Back {
        owner: file.handle,
        leaf,
    };
    let body = file_put(block, &back, bytes);
    let owner = grown_put(file.handle.slot, &file.slot, block);
    let kept = Memory {
        next_body: after(block.0),
        ..known.memory
    };
    Ok(Accepted {
        plan: planned(&[body, owner], kept),
        change: Some(Gained { block, leaf }),
    })
}

fn write_leaf(
    known: &Known,
    file: &Node,
    leaf: LeafNo,
    bytes: &[u8],
) -> Result<Accepted<Option<Gained>>, Refusal>
    ensures { (m : Model) → Writing known.now.geometry m known.now.marks.now file.now.handle file.now.slot bytes.now → Decides result (write file.now.handle leaf.0 bytes.now (card_view known.now.geometry known.now.memory) m.shown) (WritePlanned known.now.geometry m known.now.memory file.now.handle leaf.0 bytes.now) }
{
    if leaf.0 < file.slot.count {
        return replace_leaf(known, file, leaf, bytes);
    }
    if leaf.0 > file.slot.count || leaf.0 >= 64 {
        return Err(Refusal::NoSuchLeaf(leaf));
    }
    append_leaf(known, file, bytes)
}

// A leaf of the file gets these bytes: the plan, and the leaf that the file gained. Only the file's slot is read.
pub fn plan_write<D: Device>(
    device: &mut D,
    known: &Known,
    file: &Handle,
    leaf: LeafNo,
    bytes: &[u8],
) -> Result<Accepted<Option<Gained>>, Refusal>
    ensures { Grounded known.now.geometry (D.Device.model device.old) known.now.marks.now → Gives known.now.geometry result (write file.now leaf.0 bytes.now (card_view known.now.geometry known.now.memory) (D.Device.model device.old).shown) (WritePlanned known.now.geometry (D.Device.model device.old) known.now.memory file.now leaf.0 bytes.now) (D.Device.model device.old) (D.Device.model device.new) }
{
    if bytes.len() > 496 {
        return Err(Refusal::BadLength(bytes.len()));
    }
    let file = read_changing(device, known, Kind::File, file)?;
    write_leaf(known, &file, leaf, bytes)
}
