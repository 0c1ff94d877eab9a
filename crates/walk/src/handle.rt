// Handles: the slot of a file or folder, and the step from a folder to a child.
ghost use Rattle.std.specs.Prelude.{◌≡◌, Ok};
ghost use Rattle.layout.specs.Sizes.{sizes};
ghost use Rattle.rule.specs.Reading.{fits, reading, step};
ghost use Rattle.walk.specs.Still.{Gives, shows};
ghost use Rattle.walk.specs.Copies.{copied};
ghost use Rattle.walk.specs.Stepping.{stepped, entered, Enters};

use crate::entry::{Found, find_entry};
use crate::node::Node;
use crate::slot::{SlotCopy, read_slot};
use base::owner::{Handle, Kind};
use base::refusal::Refusal;
use device::Device;
use layout::geometry::Geometry;

// The slot of a handle, if the slot is well formed with that identity.
#[tactic(auto, using(crate::proofs::Stepping::fits_some, crate::proofs::Stepping::fits_other, crate::proofs::Stepping::fits_none))]
pub fn read_handle<D: Device>(
    device: &mut D,
    g: &Geometry,
    handle: &Handle,
) -> Result<SlotCopy, Refusal>
    ensures { Gives g.now result (fits (sizes g.now) (shows g.now (D.Device.model device.old)) handle.now) (λ s. fits (sizes g.now) (shows g.now (D.Device.model device.old)) handle.now ≡ Ok (copied s)) (D.Device.model device.old) (D.Device.model device.new) }
{
    match read_slot(device, g, handle.slot)? {
        Some(slot) if slot.identity == handle.identity => Ok(slot),
        _ => Err(Refusal::NoSuchHandle(handle.slot)),
    }
}

// The slot of a handle, if it fits and is of this kind. One read.
#[tactic(auto, using(crate::proofs::Stepping::reading_ok, crate::proofs::Stepping::reading_err, crate::proofs::Stepping::refused_as, crate::proofs::Stepping::gives_exit))]
pub fn read_kind<D: Device>(
    device: &mut D,
    g: &Geometry,
    kind: Kind,
    handle: &Handle,
) -> Result<SlotCopy, Refusal>
    ensures { Gives g.now result (reading (sizes g.now) (shows g.now (D.Device.model device.old)) kind handle.now) (λ s. reading (sizes g.now) (shows g.now (D.Device.model device.old)) kind handle.now ≡ Ok (copied s)) (D.Device.model device.old) (D.Device.model device.new) }
{
    let slot = read_handle(device, g, handle)?;
    let node = Node {
        handle: *handle,
        slot,
    };
    node.want_kind(kind)?;
    Ok(slot)
}

// The step from a folder to the child that has the name.
#[tactic(auto, using(crate::proofs::Stepping::bind_err, crate::proofs::Stepping::enter_gives, crate::proofs::Stepping::gives_exit, crate::proofs::Stills::still))]
pub fn enter<D: Device>(
    device: &mut D,
    g: &Geometry,
    folder: &Node,
    name: &[u8],
) -> Result<Found, Refusal>
    ensures { Gives g.now result (entered (sizes g.now) (shows g.now (D.Device.model device.old)) folder.now.handle name.now (copied folder.now.slot)) (Enters (sizes g.now) (shows g.now (D.Device.model device.old)) (entered (sizes g.now) (shows g.now (D.Device.model device.old)) folder.now.handle name.now (copied folder.now.slot))) (D.Device.model device.old) (D.Device.model device.new) }
{
    folder.want_kind(Kind::Folder)?;
    find_entry(device, g, folder, name)?.ok_or(Refusal::NoSuchName(folder.handle.slot))
}

// The child of a folder that has the name: the folder's slot, its leaves and the child's slot are each read once.
#[tactic(auto, using(crate::proofs::Stepping::step_err, crate::proofs::Stepping::refused_as, crate::proofs::Stepping::gives_exit))]
pub fn find_child<D: Device>(
    device: &mut D,
    g: &Geometry,
    folder: &Handle,
    name: &[u8],
) -> Result<Found, Refusal>
    ensures { Gives g.now result (step (sizes g.now) (shows g.now (D.Device.model device.old)) folder.now name.now) (Enters (sizes g.now) (shows g.now (D.Device.model device.old)) (step (sizes g.now) (shows g.now (D.Device.model device.old)) folder.now name.now)) (D.Device.model device.old) (D.Device.model device.new) }
{
    let slot = read_handle(device, g, folder)?;
    let node = Node {
        handle: *folder,
        slot,
    };
    enter(device, g, &node, name)
}
