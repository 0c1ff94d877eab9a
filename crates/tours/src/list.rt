// The entries of a folder, as lines.
ghost use Rattle.std.specs.Prelude.{◌≡◌, ◌<◌, ◌≤◌, [], ◌∷◌, length, slice_index_or};
ghost use Rattle.base.specs.declared.owner.Kind.TheVariants.{Folder};
ghost use Rattle.layout.specs.Sizes.{sizes};
ghost use Rattle.listing.specs.Lines.{Sofar, entry_line};
ghost use Rattle.rule.specs.Agree.{places};
ghost use Rattle.walk.specs.Still.{Says, shows};
ghost use Rattle.walk.specs.Copies.{copied};
ghost use Rattle.walk.specs.Finding.{leaf_places};
ghost use Rattle.tours.specs.Lists.{Adds, Lists, cell_rows, entry_rows};

use base::number::LeafNo;
use base::owner::{Handle, Kind};
use device::Device;
use device::fault::Fault;
use entries::entry::{Cell, parse_cell};
use layout::geometry::Geometry;
use listing::line::EntryLine;
use listing::list::Lines;
use walk::child::read_child;
use walk::leaf::read_leaf;
use walk::node::Node;

fn put_entry(lines: &mut Lines<'_, EntryLine>, name: &[u8], child: &Handle)
    requires { length name.now ≤ 24 }
    ensures added { Adds 1 (entry_line name.now child.now ∷ []) lines.old.count lines.old.lines.now lines.new.count lines.new.lines.now }
    // Kept: what a `&mut Lines` lends has to be said to be the same slice after the call, here and in each function that takes one.
    ensures same { lines.new.lines.ghost_name ≡ lines.old.lines.ghost_name }
{
    if let Some(line) = EntryLine::new(name, child) {
        lines.add(line);
    }
}

// Adds the entry in a cell of the folder's leaf, if it is sound.
fn list_cell<D: Device>(
    device: &mut D,
    g: &Geometry,
    folder: &Handle,
    cell: &[u8; 32],
    lines: &mut Lines<'_, EntryLine>,
) -> Result<(), Fault>
    ensures added { Lists g.now result 1 (cell_rows (sizes g.now) (shows g.now (D.Device.model device.old)) folder.now (cell.now ∷ [])) (D.Device.model device.old) (D.Device.model device.new) lines.old lines.new }
    ensures same { lines.new.lines.ghost_name ≡ lines.old.lines.ghost_name }
{
    let Cell::Used(entry) = parse_cell(g, cell) else {
        return Ok(());
    };
    if read_child(device, g, folder, &entry.child)?.is_some() {
        put_entry(lines, entry.name, &entry.child);
    }
    Ok(())
}

// Kept: this step and the next stand in `marks` too, three lines each: rows are added here, slots chained there, and one trait would need both laws.
// Adds the sound entries of a good leaf.
fn list_cells<D: Device>(
    device: &mut D,
    g: &Geometry,
    folder: &Handle,
    cells: &[[u8; 32]],
    lines: &mut Lines<'_, EntryLine>,
) -> Result<(), Fault>
    ensures added { Lists g.now result (length cells.now) (cell_rows (sizes g.now) (shows g.now (D.Device.model device.old)) folder.now cells.now) (D.Device.model device.old) (D.Device.model device.new) lines.old lines.new }
    ensures same { lines.new.lines.ghost_name ≡ lines.old.lines.ghost_name }
{
    for cell in cells {
        list_cell(device, g, folder, cell, lines)?;
    }
    Ok(())
}

// Adds the sound entries of a leaf, if the leaf is good.
fn list_leaf<D: Device>(
    device: &mut D,
    g: &Geometry,
    folder: &Node,
    leaf: LeafNo,
    lines: &mut Lines<'_, EntryLine>,
) -> Result<(), Fault>
    // Kept: one function asks for it, and its caller has just looked at the kind.
    requires { folder.now.slot.kind ≡ Folder }
    ensures added { Lists g.now result 15 (entry_rows (sizes g.now) (shows g.now (D.Device.model device.old)) folder.now.handle (leaf_places (shows g.now (D.Device.model device.old)) folder.now.handle (copied folder.now.slot) leaf.0)) (D.Device.model device.old) (D.Device.model device.new) lines.old lines.new }
    ensures same { lines.new.lines.ghost_name ≡ lines.old.lines.ghost_name }
{
    let Some(copy) = read_leaf(device, g, folder, leaf)? else {
        return Ok(());
    };
    list_cells(device, g, &folder.handle, copy.cells(), lines)
}

// Fills the lines with the sound entries of a folder, by leaf, then place, and answers their whole number; a file has none.
// Each leaf is read once, and the child's slot of each well-formed entry.
pub fn list_entries<D: Device>(
    device: &mut D,
    g: &Geometry,
    folder: &Node,
    lines: &mut [EntryLine],
) -> Result<usize, Fault>
    ensures { Says g.now result (λ n. Sofar lines.old (entry_rows (sizes g.now) (shows g.now (D.Device.model device.old)) folder.now.handle (places (shows g.now (D.Device.model device.old)) folder.now.handle (copied folder.now.slot))) n lines.new) (D.Device.model device.old) (D.Device.model device.new) }
{
    if folder.slot.kind == Kind::File {
        return Ok(0);
    }
    let mut list = Lines::over(lines);
    for k in 0..folder.slot.count {
        list_leaf(device, g, folder, LeafNo(k), &mut list)?;
    }
    Ok(list.count())
}
