// The file or folder of a changing call.
ghost use Rattle.std.specs.Prelude.{◌≡◌, Ok};
ghost use Rattle.layout.specs.Sizes.{sizes};
ghost use Rattle.marks.specs.Laws.{Tells};
ghost use Rattle.rule.specs.Changing.{changing};
ghost use Rattle.walk.specs.Copies.{copied};
ghost use Rattle.walk.specs.Still.{Gives, shows};

use crate::known::Known;
use base::owner::{Handle, Kind};
use base::refusal::Refusal;
use device::Device;
use walk::handle::read_handle;
use walk::node::Node;

// The handle with its slot, if the slot fits, is reached and is of this kind. One read.
pub(crate) fn read_changing<D: Device>(
    device: &mut D,
    known: &Known,
    kind: Kind,
    handle: &Handle,
) -> Result<Node, Refusal>
    ensures { Tells (sizes known.now.geometry) (shows known.now.geometry (D.Device.model device.old)) known.now.marks.now → Gives known.now.geometry result (changing (sizes known.now.geometry) (shows known.now.geometry (D.Device.model device.old)) kind handle.now) (λ x. (x.handle ≡ handle.now) × (changing (sizes known.now.geometry) (shows known.now.geometry (D.Device.model device.old)) kind x.handle ≡ Ok (copied x.slot))) (D.Device.model device.old) (D.Device.model device.new) }
{
    let slot = read_handle(device, &known.geometry, handle)?;
    if !known.marks.is_reached(handle.slot) {
        return Err(Refusal::NoSuchHandle(handle.slot));
    }
    let node = Node {
        handle: *handle,
        slot,
    };
    node.want_kind(kind)?;
    Ok(node)
}
