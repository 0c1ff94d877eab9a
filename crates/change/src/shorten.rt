// The plan of a shorten.
ghost use Rattle.std.specs.Prelude.{◌≡◌, Ok};
ghost use Rattle.base.specs.declared.owner.Kind.TheVariants.{File};
ghost use Rattle.device.specs.Model.{Model};
ghost use Rattle.layout.specs.Sizes.{sizes};
ghost use Rattle.rule.specs.Changing.{changing, shorten};
ghost use Rattle.walk.specs.Copies.{copied};
ghost use Rattle.walk.specs.Still.{Gives, shows};
ghost use Rattle.change.specs.Plans.{card_view, Grounded, Decides, ShortenPlanned};

use crate::blocks::{cut_put, planned};
use crate::changing::read_changing;
use crate::known::Known;
use crate::plan::Accepted;
use base::number::LeafNo;
use base::owner::{Handle, Kind};
use base::refusal::Refusal;
use device::Device;
use walk::node::Node;

fn shorten_file(known: &Known, file: Node, n: LeafNo) -> Result<Accepted<Node>, Refusal>
    ensures { (m : Model) → changing (sizes known.now.geometry) (shows known.now.geometry m) File file.handle ≡ Ok (copied file.slot) → Decides result (shorten file.handle n.0 (card_view known.now.geometry known.now.memory) m.shown) (ShortenPlanned known.now.geometry m known.now.memory file.handle n.0) }
{
    if n.0 > file.slot.count {
        return Err(Refusal::NoSuchLeaf(n));
    }
    let plan = if n.0 == file.slot.count {
        planned(&[], known.memory)
    } else {
        let put = cut_put(file.handle.slot, &file.slot, n.0);
        planned(&[put], known.memory)
    };
    Ok(Accepted { plan, change: file })
}

// The file keeps its first n leaves: the plan, and the file as it was. Only its slot is read.
pub fn plan_shorten<D: Device>(
    device: &mut D,
    known: &Known,
    file: &Handle,
    n: LeafNo,
) -> Result<Accepted<Node>, Refusal>
    ensures { Grounded known.now.geometry (D.Device.model device.old) known.now.marks.now → Gives known.now.geometry result (shorten file.now n.0 (card_view known.now.geometry known.now.memory) (D.Device.model device.old).shown) (ShortenPlanned known.now.geometry (D.Device.model device.old) known.now.memory file.now n.0) (D.Device.model device.old) (D.Device.model device.new) }
{
    let file = read_changing(device, known, Kind::File, file)?;
    shorten_file(known, file, n)
}
