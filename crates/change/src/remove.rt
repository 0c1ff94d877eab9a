// The plan of a remove.
ghost use Rattle.device.specs.Model.{Model};
ghost use Rattle.layout.specs.Format.{Name};
ghost use Rattle.rule.specs.Changing.{remove};
ghost use Rattle.walk.specs.Still.{Still, Gives};
ghost use Rattle.change.specs.Plans.{card_view, Grounded, Removing, RemovePlanned};

use crate::blocks::{blank_put, cell_put, planned};
use crate::changing::read_changing;
use crate::known::Known;
use crate::plan::Accepted;
use crate::scan::{Sought, Spot, child_at, scan_folder};
use base::owner::{Handle, Kind};
use base::refusal::Refusal;
use device::Device;
use walk::node::Node;
use walk::path::check_name;
use walk::slot::read_slot;

// The entry that was found goes, and its child's slot. The child's slot is read, and if it is a folder's, its leaves
// until a sound entry is met.
fn remove_found<D: Device>(
    device: &mut D,
    known: &Known,
    folder: &Node,
    spot: &Spot,
) -> Result<Accepted<Node>, Refusal>
    ensures { (m : Model) (n : Name) → Still m (D.Device.model device.old) → Removing known.now.geometry m known.now.marks.now folder.now.handle folder.now.slot n spot.now → Gives known.now.geometry result (remove folder.now.handle n (card_view known.now.geometry known.now.memory) m.shown) (RemovePlanned known.now.geometry m known.now.memory folder.now.handle n) m (D.Device.model device.new) }
{
    let handle = child_at(&known.geometry, spot);
    // Where the marks agree with the blocks, the child of a sound entry has its slot.
    let Some(slot) = read_slot(device, &known.geometry, handle.slot)? else {
        return Err(Refusal::NoSuchName(folder.handle.slot));
    };
    let child = Node { handle, slot };
    let inside = scan_folder(device, known, &child, Sought::Entry)?;
    if inside.found.is_some() {
        return Err(Refusal::FolderNotEmpty(handle.slot));
    }
    let entry = cell_put(folder, spot, &[0; 32]);
    let own = blank_put(handle.slot);
    Ok(Accepted {
        plan: planned(&[entry, own], known.memory),
        change: child,
    })
}

// The plan, and the child that goes. The folder's slot and its leaves up to the entry are read once.
pub fn plan_remove<D: Device>(
    device: &mut D,
    known: &Known,
    folder: &Handle,
    name: &[u8],
) -> Result<Accepted<Node>, Refusal>
    ensures { Grounded known.now.geometry (D.Device.model device.old) known.now.marks.now → Gives known.now.geometry result (remove folder.now name.now (card_view known.now.geometry known.now.memory) (D.Device.model device.old).shown) (RemovePlanned known.now.geometry (D.Device.model device.old) known.now.memory folder.now name.now) (D.Device.model device.old) (D.Device.model device.new) }
{
    check_name(name)?;
    let folder = read_changing(device, known, Kind::Folder, folder)?;
    let scan = scan_folder(device, known, &folder, Sought::Named(name))?;
    let Some(spot) = scan.found else {
        return Err(Refusal::NoSuchName(folder.handle.slot));
    };
    remove_found(device, known, &folder, &spot)
}
