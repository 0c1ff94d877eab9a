// The leaves that are not good of the slots that are marked, as lines.
ghost use Rattle.std.specs.Prelude.{◌≡◌, [], ◌∷◌};
ghost use Rattle.layout.specs.Sizes.{sizes};
ghost use Rattle.listing.specs.Lines.{Sofar};
ghost use Rattle.walk.specs.Still.{Says, shows};
ghost use Rattle.walk.specs.Copies.{copied};
ghost use Rattle.tours.specs.Lists.{Lists};
ghost use Rattle.tours.specs.Damage.{damage_rows, slot_rows, leaf_rows, leaves_rows};

use base::number::{LeafNo, SlotNo};
use base::owner::Handle;
use device::Device;
use device::fault::Fault;
use layout::geometry::Geometry;
use listing::line::DamageLine;
use listing::list::Lines;
use walk::leaf::read_leaf;
use walk::node::Node;
use walk::slot::read_slot;

// Adds a leaf, unless it is good.
fn check_leaf<D: Device>(
    device: &mut D,
    g: &Geometry,
    node: &Node,
    leaf: LeafNo,
    lines: &mut Lines<'_, DamageLine>,
) -> Result<(), Fault>
    ensures added { Lists g.now result 1 (leaf_rows (shows g.now (D.Device.model device.old)) node.now.handle (copied node.now.slot) (leaf.0 ∷ [])) (D.Device.model device.old) (D.Device.model device.new) lines.old lines.new }
    ensures same { lines.new.lines.ghost_name ≡ lines.old.lines.ghost_name }
{
    if read_leaf(device, g, node, leaf)?.is_none() {
        lines.add(DamageLine {
            slot: node.handle.slot,
            leaf,
        });
    }
    Ok(())
}

// Adds the leaves that are not good.
fn check_leaves<D: Device>(
    device: &mut D,
    g: &Geometry,
    node: &Node,
    lines: &mut Lines<'_, DamageLine>,
) -> Result<(), Fault>
    ensures added { Lists g.now result 65535 (leaves_rows (shows g.now (D.Device.model device.old)) node.now.handle (copied node.now.slot)) (D.Device.model device.old) (D.Device.model device.new) lines.old lines.new }
    ensures same { lines.new.lines.ghost_name ≡ lines.old.lines.ghost_name }
{
    for k in 0..node.slot.count {
        check_leaf(device, g, node, LeafNo(k), lines)?;
    }
    Ok(())
}

// The same, if the slot is well formed.
fn check_slot<D: Device>(
    device: &mut D,
    g: &Geometry,
    at: SlotNo,
    lines: &mut Lines<'_, DamageLine>,
) -> Result<(), Fault>
    ensures added { Lists g.now result 65535 (slot_rows (sizes g.now) (shows g.now (D.Device.model device.old)) at.0) (D.Device.model device.old) (D.Device.model device.new) lines.old lines.new }
    ensures same { lines.new.lines.ghost_name ≡ lines.old.lines.ghost_name }
{
    let Some(slot) = read_slot(device, g, at)? else {
        return Ok(());
    };
    let handle = Handle {
        slot: at,
        identity: slot.identity,
    };
    check_leaves(device, g, &Node { handle, slot }, lines)
}

// Fills the lines with the leaves of marked slots that are not good, by slot, then leaf, and answers their whole number.
pub fn damage_lines<D: Device>(
    device: &mut D,
    g: &Geometry,
    marks: &[bool; 256],
    lines: &mut [DamageLine],
) -> Result<usize, Fault>
    ensures { Says g.now result (λ n. Sofar lines.old (damage_rows (sizes g.now) (shows g.now (D.Device.model device.old)) marks.now) n lines.new) (D.Device.model device.old) (D.Device.model device.new) }
{
    let mut list = Lines::over(lines);
    for (s, &marked) in (0..g.slots).zip(marks) {
        if marked {
            check_slot(device, g, SlotNo(s), &mut list)?;
        }
    }
    Ok(list.count())
}
