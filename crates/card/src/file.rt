// The leaves of a file.
ghost use Rattle.std.specs.Prelude.{◌≡◌, Ok};
ghost use Rattle.layout.specs.Sizes.{sizes};
ghost use Rattle.walk.specs.Copies.{front};
ghost use Rattle.walk.specs.Still.{Gives, shows};
ghost use Rattle.card.specs.Files.{leaf_bytes};

use base::number::LeafNo;
use base::owner::{Handle, Kind};
use base::refusal::Refusal;
use device::Device;
use layout::geometry::Geometry;
use walk::handle::read_kind;
use walk::leaf::read_leaf;
use walk::leaf_copy::LeafCopy;
use walk::node::Node;

// A leaf of a file: its slot and its body are read, nothing else.
pub fn read_file<D: Device>(
    device: &mut D,
    g: &Geometry,
    handle: &Handle,
    leaf: LeafNo,
) -> Result<LeafCopy, Refusal>
    ensures { Gives g.now result (leaf_bytes (sizes g.now) (shows g.now (D.Device.model device.old)) handle.now leaf.0) (λ l. leaf_bytes (sizes g.now) (shows g.now (D.Device.model device.old)) handle.now leaf.0 ≡ Ok (front l)) (D.Device.model device.old) (D.Device.model device.new) }
{
    let slot = read_kind(device, g, Kind::File, handle)?;
    let file = Node {
        handle: *handle,
        slot,
    };
    if leaf.0 >= slot.count {
        return Err(Refusal::NoSuchLeaf(leaf));
    }
    let copy = read_leaf(device, g, &file, leaf)?;
    copy.ok_or(Refusal::LeafNotGood(slot.number(leaf)))
}
