// Marks of what is reached.
ghost use Rattle.std.specs.Prelude.{◌≡◌, length};
ghost use Rattle.layout.specs.Sizes.{sizes};
ghost use Rattle.walk.specs.Still.{Says, shows};
ghost use Rattle.walk.specs.Copies.{copied};
ghost use Rattle.tours.specs.Marks.{Chained, Worked, Chain, CellDone, CellChained, CellsDone, CellsChained, LeafDone, LeavesDone, Done, Open, MarksReached};

use crate::work::Work;
use base::number::{LeafNo, SlotNo};
use base::owner::{Handle, Kind};
use device::Device;
use device::fault::Fault;
use entries::entry::{Cell, parse_cell};
use layout::geometry::Geometry;
use walk::child::read_child;
use walk::leaf::read_leaf;
use walk::node::Node;
use walk::slot::read_slot;

// Enters the child of the entry in a cell, if the entry is sound.
fn mark_cell<D: Device>(
    device: &mut D,
    g: &Geometry,
    folder: &Handle,
    cell: &[u8; 32],
    work: &mut Work,
) -> Result<(), Fault>
    requires { (Chained (sizes g.now) (shows g.now (D.Device.model device.old)) work.old) × (CellChained (sizes g.now) (shows g.now (D.Device.model device.old)) folder.now cell.now) }
    ensures { Worked g.now result (CellDone (sizes g.now) (shows g.now (D.Device.model device.old)) folder.now cell.now) (D.Device.model device.old) (D.Device.model device.new) work.old work.new }
{
    let Cell::Used(entry) = parse_cell(g, cell) else {
        return Ok(());
    };
    if read_child(device, g, folder, &entry.child)?.is_some() {
        work.enter(entry.child.slot);
    }
    Ok(())
}

// Enters the children of the sound entries of a good leaf.
fn mark_cells<D: Device>(
    device: &mut D,
    g: &Geometry,
    folder: &Handle,
    cells: &[[u8; 32]],
    work: &mut Work,
) -> Result<(), Fault>
    requires { (Chained (sizes g.now) (shows g.now (D.Device.model device.old)) work.old) × (CellsChained (sizes g.now) (shows g.now (D.Device.model device.old)) folder.now cells.now) }
    ensures { Worked g.now result (CellsDone (sizes g.now) (shows g.now (D.Device.model device.old)) folder.now cells.now (length cells.now)) (D.Device.model device.old) (D.Device.model device.new) work.old work.new }
{
    for cell in cells {
        mark_cell(device, g, folder, cell, work)?;
    }
    Ok(())
}

// Enters the children in a leaf, if the leaf is good.
fn mark_leaf<D: Device>(
    device: &mut D,
    g: &Geometry,
    folder: &Node,
    leaf: LeafNo,
    work: &mut Work,
) -> Result<(), Fault>
    requires { (Open (sizes g.now) (shows g.now (D.Device.model device.old)) folder.now.handle (copied folder.now.slot)) × (Chained (sizes g.now) (shows g.now (D.Device.model device.old)) work.old) }
    ensures { Worked g.now result (LeafDone (sizes g.now) (shows g.now (D.Device.model device.old)) folder.now.handle (copied folder.now.slot) leaf.0) (D.Device.model device.old) (D.Device.model device.new) work.old work.new }
{
    let Some(copy) = read_leaf(device, g, folder, leaf)? else {
        return Ok(());
    };
    mark_cells(device, g, &folder.handle, copy.cells(), work)
}

// Enters the children in the leaves of a folder.
fn mark_leaves<D: Device>(
    device: &mut D,
    g: &Geometry,
    folder: &Node,
    work: &mut Work,
) -> Result<(), Fault>
    requires { (Open (sizes g.now) (shows g.now (D.Device.model device.old)) folder.now.handle (copied folder.now.slot)) × (Chained (sizes g.now) (shows g.now (D.Device.model device.old)) work.old) }
    ensures { Worked g.now result (LeavesDone (sizes g.now) (shows g.now (D.Device.model device.old)) folder.now.handle (copied folder.now.slot) folder.now.slot.count) (D.Device.model device.old) (D.Device.model device.new) work.old work.new }
{
    for k in 0..folder.slot.count {
        mark_leaf(device, g, folder, LeafNo(k), work)?;
    }
    Ok(())
}

// Enters the children of the folder in a slot; a file has none.
fn expand<D: Device>(device: &mut D, g: &Geometry, at: SlotNo, work: &mut Work) -> Result<(), Fault>
    requires { (Chain (sizes g.now) (shows g.now (D.Device.model device.old)) at.0) × (Chained (sizes g.now) (shows g.now (D.Device.model device.old)) work.old) }
    ensures { Worked g.now result (Done (sizes g.now) (shows g.now (D.Device.model device.old)) at.0) (D.Device.model device.old) (D.Device.model device.new) work.old work.new }
{
    let Some(slot) = read_slot(device, g, at)? else {
        return Ok(());
    };
    if slot.kind == Kind::File {
        return Ok(());
    }
    let handle = Handle {
        slot: at,
        identity: slot.identity,
    };
    mark_leaves(device, g, &Node { handle, slot }, work)
}

// Marks the slots that are reached, and no others. Each reached slot and each leaf of a reached folder is read once,
// and the child's slot of each well-formed entry there.
pub fn mark_reached<D: Device>(device: &mut D, g: &Geometry) -> Result<[bool; 256], Fault>
    ensures { Says g.now result (MarksReached (sizes g.now) (shows g.now (D.Device.model device.old))) (D.Device.model device.old) (D.Device.model device.new) }
{
    let mut work = Work::new();
    work.enter(SlotNo(0));
    while let Some(slot) = work.next() {
        expand(device, g, slot, &mut work)?;
    }
    Ok(work.marks)
}
