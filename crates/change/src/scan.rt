// One scan over the entries of a folder. Whether an entry is sound is told by the marks: no child's slot is read.
ghost use Rattle.std.specs.Prelude.{◌≡◌, ◌<◌, [], length, take, Some, MatchOption, slice_index_or};
ghost use Rattle.base.specs.declared.owner.Kind.TheVariants.{Folder};
ghost use Rattle.layout.specs.Format.{entry_of};
ghost use Rattle.layout.specs.Head.{cells};
ghost use Rattle.layout.specs.Sizes.{sizes};
ghost use Rattle.rule.specs.Reading.{child_of};
ghost use Rattle.walk.specs.Copies.{copied};
ghost use Rattle.walk.specs.Still.{Says, shows};
ghost use Rattle.change.specs.Scanning.{passes, PlaceIs, SpotIn, LeafScanned, Scanned};
ghost use Rattle.change.specs.declared.scan.Sought.TheVariants.{Open};

use crate::known::Known;
use base::number::LeafNo;
use base::owner::{Handle, Kind};
use device::Device;
use device::fault::Fault;
use entries::entry::{Cell, parse_cell};
use layout::geometry::Geometry;
use walk::leaf::read_leaf;
use walk::leaf_copy::LeafCopy;
use walk::node::Node;
use walk::path::ROOT;

// What a scan looks for: any sound entry, a sound entry with the name, or a place that has no sound entry.
// Kept: a closure would say what is sought, but the card library has none, and the three are all that there are.
#[derive(Clone, Copy, PartialEq, Eq, Debug)]
pub enum Sought<'a> {
    Entry,
    Named(&'a [u8]),
    Open,
}

// A place over the good leaves of a folder, with a copy of its leaf.
#[derive(Clone, Copy)]
pub struct Spot {
    pub leaf: LeafNo,
    pub place: usize,
    pub copy: LeafCopy,
}

// The first place that was sought, and the first open place before it.
#[derive(Clone, Copy)]
pub struct Scan {
    pub found: Option<Spot>,
    pub vacant: Option<Spot>,
}

fn is_sought(known: &Known, folder: &Handle, sought: Sought, cell: &[u8; 32]) -> bool
    ensures { result ≡ passes (sizes known.now.geometry) known.now.marks.now folder.now sought.entry cell.now }
{
    match (parse_cell(&known.geometry, cell), sought) {
        (Cell::Used(e), Sought::Entry) => known.marks.is_child(folder, &e.child),
        (Cell::Used(e), Sought::Named(name)) => {
            *name == *e.name && known.marks.is_child(folder, &e.child)
        }
        (Cell::Used(e), Sought::Open) => !known.marks.is_child(folder, &e.child),
        (_, Sought::Open) => true,
        _ => false,
    }
}

// The first place among the 15 of a leaf.
fn find_place(known: &Known, folder: &Handle, sought: Sought, cells: &[[u8; 32]]) -> Option<usize>
    requires { length cells.now ≡ 15 }
    ensures { PlaceIs (sizes known.now.geometry) known.now.marks.now folder.now sought.entry cells.now result }
{
    for (place, cell) in cells.iter().enumerate() {
        if is_sought(known, folder, sought, cell) {
            return Some(place);
        }
    }
    None
}

// The same with a copy of the leaf.
fn spot_in(
    known: &Known,
    folder: &Handle,
    sought: Sought,
    leaf: LeafNo,
    copy: &LeafCopy,
) -> Option<Spot>
    ensures { SpotIn (sizes known.now.geometry) known.now.marks.now folder.now sought.entry leaf.0 copy.now result }
{
    let place = find_place(known, folder, sought, copy.cells())?;
    Some(Spot {
        leaf,
        place,
        copy: *copy,
    })
}

// The open place that was met before, or the first one in this leaf.
fn vacant_in(
    known: &Known,
    folder: &Handle,
    leaf: LeafNo,
    copy: &LeafCopy,
    before: Option<Spot>,
) -> Option<Spot>
    ensures { MatchOption before (SpotIn (sizes known.now.geometry) known.now.marks.now folder.now Open leaf.0 copy.now result) (λ y. result ≡ Some y) }
{
    if before.is_some() {
        return before;
    }
    spot_in(known, folder, Sought::Open, leaf, copy)
}

// A leaf of the folder, if it is good. One read.
// Kept: the premise on the kind: the one caller has just looked at it, and a type for a folder's node would only move it.
fn scan_leaf<D: Device>(
    device: &mut D,
    known: &Known,
    folder: &Node,
    sought: Sought,
    leaf: LeafNo,
    before: Option<Spot>,
) -> Result<Scan, Fault>
    requires { folder.now.slot.kind ≡ Folder }
    ensures { Says known.now.geometry result (LeafScanned (sizes known.now.geometry) (shows known.now.geometry (D.Device.model device.old)) known.now.marks.now folder.now.handle (copied folder.now.slot) leaf.0 sought.entry before) (D.Device.model device.old) (D.Device.model device.new) }
{
    let Some(copy) = read_leaf(device, &known.geometry, folder, leaf)? else {
        return Ok(Scan {
            found: None,
            vacant: before,
        });
    };
    let found = spot_in(known, &folder.handle, sought, leaf, &copy);
    let vacant = vacant_in(known, &folder.handle, leaf, &copy, before);
    Ok(Scan { found, vacant })
}

// The leaves of a folder up to the first place that is sought; each is read once. A file has none.
pub(crate) fn scan_folder<D: Device>(
    device: &mut D,
    known: &Known,
    folder: &Node,
    sought: Sought,
) -> Result<Scan, Fault>
    ensures { Says known.now.geometry result (Scanned (sizes known.now.geometry) (shows known.now.geometry (D.Device.model device.old)) known.now.marks.now folder.now.handle (copied folder.now.slot) sought.entry) (D.Device.model device.old) (D.Device.model device.new) }
{
    let mut vacant = None;
    if folder.slot.kind == Kind::File {
        return Ok(Scan {
            found: None,
            vacant,
        });
    }
    for k in 0..folder.slot.count {
        let here = scan_leaf(device, known, folder, sought, LeafNo(k), vacant)?;
        if here.found.is_some() {
            return Ok(here);
        }
        vacant = here.vacant;
    }
    Ok(Scan {
        found: None,
        vacant,
    })
}

// The child that the entry in a cell leads to; the root where there is no entry.
// Kept: no Option: the definition child_of answers the root there too, and the callers of child_at have a sound entry.
fn child_in(g: &Geometry, cell: &[u8; 32]) -> Handle
    ensures { result ≡ child_of (entry_of (sizes g.now) cell.now) }
{
    match parse_cell(g, cell) {
        Cell::Used(e) => e.child,
        Cell::Blank | Cell::IllFormed => ROOT,
    }
}

// The same at a place that a scan has found.
pub(crate) fn child_at(g: &Geometry, spot: &Spot) -> Handle
    ensures { spot.now.place < 15 → result ≡ child_of (entry_of (sizes g.now) (slice_index_or (cells (take 480 spot.now.copy.bytes)) spot.now.place [])) }
{
    match spot.copy.cells().get(spot.place) {
        Some(cell) => child_in(g, cell),
        None => ROOT,
    }
}
