// The plan of a create.
ghost use Rattle.std.specs.Prelude.{◌≡◌, Some, None};
ghost use Rattle.device.specs.Model.{Model};
ghost use Rattle.layout.specs.Format.{Name};
ghost use Rattle.layout.specs.Sizes.{sizes};
ghost use Rattle.rule.specs.Agree.{Place};
ghost use Rattle.rule.specs.Changing.{open_place, create as created};
ghost use Rattle.walk.specs.Copies.{copied};
ghost use Rattle.walk.specs.Still.{Gives, shows};
ghost use Rattle.change.specs.Plans.{card_view, fresh, Grounded, Decides, Entering, Creating, CreatePlanned};
ghost use Rattle.change.specs.Scanning.{SpotAt, SpotOr};

use crate::blocks::{after, cell_put, entry_cell, first_put, grown_put, new_put, planned};
use crate::changing::read_changing;
use crate::known::Known;
use crate::plan::{Accepted, Created, Gained, Memory};
use crate::scan::{Sought, Spot, child_at, scan_folder};
use base::number::{Identity, LeafNo};
use base::owner::{Back, Handle, Kind};
use base::refusal::Refusal;
use device::Device;
use walk::node::Node;
use walk::path::check_name;

// The highest identity that there is.
const LAST_IDENTITY: u32 = 4294967295;

// The handle of a new child: a free slot, and the next identity.
fn new_child(known: &Known) -> Result<Handle, Refusal>
    ensures { result ≡ fresh known.now.geometry known.now.marks.now known.now.memory }
{
    let Some(slot) = known
        .marks
        .free_slot(&known.geometry, known.memory.next_slot)
    else {
        return Err(Refusal::NoFreeSlot(known.geometry.slots));
    };
    if known.memory.highest.0 >= LAST_IDENTITY {
        return Err(Refusal::IdentitiesSpent);
    }
    Ok(Handle {
        slot,
        identity: Identity(known.memory.highest.0 + 1),
    })
}

// The entry goes to a place over the folder's leaves that is not sound.
fn create_in_place(
    known: &Known,
    kind: Kind,
    folder: &Node,
    child: &Handle,
    cell: &[u8; 32],
    spot: &Spot,
) -> Accepted<Created>
    ensures { (m : Model) (n : Name) (q : Place) → Creating known.now.geometry m known.now.marks.now known.now.memory folder.now.handle folder.now.slot n child.now cell.now → open_place (sizes known.now.geometry) (shows known.now.geometry m) folder.now.handle (copied folder.now.slot) ≡ Some q → SpotAt (shows known.now.geometry m) (copied folder.now.slot) q spot.now → CreatePlanned known.now.geometry m known.now.memory kind folder.now.handle n result }
{
    let own = new_put(child, kind, &folder.handle);
    let entry = cell_put(folder, spot, cell);
    let kept = Memory {
        highest: child.identity,
        next_slot: after(child.slot.0),
        next_body: known.memory.next_body,
    };
    Accepted {
        plan: planned(&[own, entry], kept),
        change: Created {
            child: *child,
            gained: None,
        },
    }
}

// The entry goes to a new leaf, in a free body.
fn create_on_leaf(
    known: &Known,
    kind: Kind,
    folder: &Node,
    child: &Handle,
    cell: &[u8; 32],
) -> Result<Accepted<Created>, Refusal>
    ensures { (m : Model) (n : Name) → Creating known.now.geometry m known.now.marks.now known.now.memory folder.now.handle folder.now.slot n child.now cell.now → open_place (sizes known.now.geometry) (shows known.now.geometry m) folder.now.handle (copied folder.now.slot) ≡ None → Decides result (created kind folder.now.handle n (card_view known.now.geometry known.now.memory) m.shown) (CreatePlanned known.now.geometry m known.now.memory kind folder.now.handle n) }
{
    if folder.slot.count >= 64 {
        return Err(Refusal::FolderFull(folder.handle.slot));
    }
    let Some(block) = known
        .marks
        .free_body(&known.geometry, known.memory.next_body)
    else {
        return Err(Refusal::NoFreeBody(folder.handle.slot));
    };
    let leaf = LeafNo(folder.slot.count);
    let line = Back {
        owner: folder.handle,
        leaf,
    };
    let own = new_put(child, kind, &folder.handle);
    let entry = first_put(block, &line, cell);
    let owner = grown_put(folder.handle.slot, &folder.slot, block);
    let kept = Memory {
        highest: child.identity,
        next_slot: after(child.slot.0),
        next_body: after(block.0),
    };
    Ok(Accepted {
        plan: planned(&[own, entry, owner], kept),
        change: Created {
            child: *child,
            gained: Some(Gained { block, leaf }),
        },
    })
}

// The folder's first open place is given.
fn create_in(
    known: &Known,
    kind: Kind,
    folder: &Node,
    name: &[u8],
    vacant: Option<Spot>,
) -> Result<Accepted<Created>, Refusal>
    ensures { (m : Model) → Entering known.now.geometry m known.now.marks.now folder.now.handle folder.now.slot name.now → SpotOr (shows known.now.geometry m) (copied folder.now.slot) (open_place (sizes known.now.geometry) (shows known.now.geometry m) folder.now.handle (copied folder.now.slot)) None vacant → Decides result (created kind folder.now.handle name.now (card_view known.now.geometry known.now.memory) m.shown) (CreatePlanned known.now.geometry m known.now.memory kind folder.now.handle name.now) }
{
    let child = new_child(known)?;
    let cell = entry_cell(name, &child);
    match vacant {
        Some(spot) => Ok(create_in_place(known, kind, folder, &child, &cell, &spot)),
        None => create_on_leaf(known, kind, folder, &child, &cell),
    }
}

// An empty file or folder under a name. The folder's slot and each of its leaves are read once.
pub fn plan_create<D: Device>(
    device: &mut D,
    known: &Known,
    kind: Kind,
    folder: &Handle,
    name: &[u8],
) -> Result<Accepted<Created>, Refusal>
    ensures { Grounded known.now.geometry (D.Device.model device.old) known.now.marks.now → Gives known.now.geometry result (created kind folder.now name.now (card_view known.now.geometry known.now.memory) (D.Device.model device.old).shown) (CreatePlanned known.now.geometry (D.Device.model device.old) known.now.memory kind folder.now name.now) (D.Device.model device.old) (D.Device.model device.new) }
{
    check_name(name)?;
    let folder = read_changing(device, known, Kind::Folder, folder)?;
    let scan = scan_folder(device, known, &folder, Sought::Named(name))?;
    if let Some(spot) = scan.found {
        return Err(Refusal::NameTaken(child_at(&known.geometry, &spot).slot));
    }
    create_in(known, kind, &folder, name, scan.vacant)
}
