// The search for a name among the entries of a folder.
ghost use Rattle.std.specs.Prelude.{◌≡◌};
ghost use Rattle.base.specs.declared.owner.Kind.TheVariants.{Folder};
ghost use Rattle.layout.specs.Sizes.{sizes};
ghost use Rattle.rule.specs.Agree.{places_of, found};
ghost use Rattle.walk.specs.Still.{Says, shows};
ghost use Rattle.walk.specs.Copies.{copied};
ghost use Rattle.walk.specs.Finding.{CellIs, FirstIs, first_hit, leaf_places};

use crate::child::read_child;
use crate::leaf::read_leaf;
use crate::node::Node;
use base::number::LeafNo;
use base::owner::{Handle, Kind};
use device::Device;
use device::fault::Fault;
use entries::entry::{Cell, parse_cell};
use layout::geometry::Geometry;

// A sound entry: where it stands, and its child.
#[derive(Clone, Copy, PartialEq, Eq, Debug)]
pub struct Found {
    pub leaf: LeafNo,
    pub place: usize,
    pub child: Node,
}

// The child of the entry in a cell, if it has the name and is sound. A slot is read only where the name is the same.
fn try_cell<D: Device>(
    device: &mut D,
    g: &Geometry,
    folder: &Handle,
    name: &[u8],
    cell: &[u8; 32],
) -> Result<Option<Node>, Fault>
    ensures { Says g.now result (CellIs (sizes g.now) (shows g.now (D.Device.model device.old)) folder.now name.now cell.now) (D.Device.model device.old) (D.Device.model device.new) }
{
    let Cell::Used(entry) = parse_cell(g, cell) else {
        return Ok(None);
    };
    if *name != *entry.name {
        return Ok(None);
    }
    let Some(slot) = read_child(device, g, folder, &entry.child)? else {
        return Ok(None);
    };
    Ok(Some(Node {
        handle: entry.child,
        slot,
    }))
}

// The first sound entry with the name among the cells of a leaf.
fn find_in_leaf<D: Device>(
    device: &mut D,
    g: &Geometry,
    folder: &Handle,
    name: &[u8],
    leaf: LeafNo,
    cells: &[[u8; 32]],
) -> Result<Option<Found>, Fault>
    ensures { Says g.now result (FirstIs (sizes g.now) (shows g.now (D.Device.model device.old)) folder.now name.now (first_hit (sizes g.now) (shows g.now (D.Device.model device.old)) folder.now name.now (places_of leaf.0 0 cells.now))) (D.Device.model device.old) (D.Device.model device.new) }
{
    for (place, cell) in cells.iter().enumerate() {
        if let Some(child) = try_cell(device, g, folder, name, cell)? {
            return Ok(Some(Found { leaf, place, child }));
        }
    }
    Ok(None)
}

// The same in a leaf of the folder, if the leaf is good.
fn find_leaf<D: Device>(
    device: &mut D,
    g: &Geometry,
    folder: &Node,
    name: &[u8],
    leaf: LeafNo,
) -> Result<Option<Found>, Fault>
    requires { folder.now.slot.kind ≡ Folder }
    ensures { Says g.now result (FirstIs (sizes g.now) (shows g.now (D.Device.model device.old)) folder.now.handle name.now (first_hit (sizes g.now) (shows g.now (D.Device.model device.old)) folder.now.handle name.now (leaf_places (shows g.now (D.Device.model device.old)) folder.now.handle (copied folder.now.slot) leaf.0))) (D.Device.model device.old) (D.Device.model device.new) }
{
    let Some(copy) = read_leaf(device, g, folder, leaf)? else {
        return Ok(None);
    };
    find_in_leaf(device, g, &folder.handle, name, leaf, copy.cells())
}

// The first sound entry with the name, by leaf, then place; a file has none. Each leaf is read once.
pub fn find_entry<D: Device>(
    device: &mut D,
    g: &Geometry,
    folder: &Node,
    name: &[u8],
) -> Result<Option<Found>, Fault>
    ensures { Says g.now result (FirstIs (sizes g.now) (shows g.now (D.Device.model device.old)) folder.now.handle name.now (found (sizes g.now) (shows g.now (D.Device.model device.old)) folder.now.handle (copied folder.now.slot) name.now)) (D.Device.model device.old) (D.Device.model device.new) }
{
    if folder.slot.kind == Kind::File {
        return Ok(None);
    }
    for k in 0..folder.slot.count {
        let found = find_leaf(device, g, folder, name, LeafNo(k))?;
        if found.is_some() {
            return Ok(found);
        }
    }
    Ok(None)
}
