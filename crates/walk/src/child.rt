// Whether an entry is sound: its child's slot agrees with it.
ghost use Rattle.std.specs.Prelude.{◌≡◌, ◌&&◌, ◌==◌};
ghost use Rattle.layout.specs.Sizes.{sizes};
ghost use Rattle.rule.specs.Agree.{same_handle};
ghost use Rattle.walk.specs.Still.{Says, shows};
ghost use Rattle.walk.specs.Copies.{parent_line, ChildIs};

use crate::slot::{SlotCopy, read_slot};
use base::owner::Handle;
use device::Device;
use device::fault::Fault;
use layout::geometry::Geometry;
use layout::owner::{Owned, names};

// A slot names the slot and identity of the folder that it is in.
impl Owned for SlotCopy {
    type Line = Handle;

    ghost owner = { parent_line };

    fn line(&self) -> Handle {
        self.parent
    }
}

impl SlotCopy {
    // Whether it is the slot of this child, and names this folder.
    pub fn is_child(&self, folder: &Handle, child: &Handle) -> bool
        ensures { result ≡ (self.now.identity.0 == child.now.identity.0 && same_handle self.now.parent folder.now) }
    {
        self.identity == child.identity && names(self, folder)
    }
}

// The slot of the child that an entry of this folder leads to, if the entry is sound. One read.
pub fn read_child<D: Device>(
    device: &mut D,
    g: &Geometry,
    folder: &Handle,
    child: &Handle,
) -> Result<Option<SlotCopy>, Fault>
    ensures { Says g.now result (ChildIs (sizes g.now) (shows g.now (D.Device.model device.old)) folder.now child.now) (D.Device.model device.old) (D.Device.model device.new) }
{
    match read_slot(device, g, child.slot)? {
        Some(slot) if slot.is_child(folder, child) => Ok(Some(slot)),
        _ => Ok(None),
    }
}
