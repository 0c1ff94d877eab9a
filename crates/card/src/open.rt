// Opening a card: its cover, the size of its device and its root.
ghost use Rattle.std.specs.Prelude.{◌≡◌};
ghost use Rattle.layout.specs.Sizes.{sizes};
ghost use Rattle.rule.specs.Card.{opening};
ghost use Rattle.walk.specs.Copies.{copied};
ghost use Rattle.card.specs.Opening.{rooted, sized, Opening};

use base::number::{BlockNo, Identity};
use base::owner::Kind;
use base::refusal::Refusal;
use device::Device;
use layout::block::parse_cover;
use layout::geometry::Geometry;
use walk::path::ROOT;
use walk::slot::{SlotCopy, read_slot};

fn is_root(slot: &SlotCopy) -> bool
    ensures { result ≡ rooted (copied slot.now) }
{
    slot.kind == Kind::Folder && slot.identity == Identity(1) && slot.parent == ROOT
}

// The device has to be large enough, and the root good.
fn open_sized<D: Device>(device: &mut D, g: Geometry) -> Result<Geometry, Refusal>
    ensures { Opening result (sized (D.Device.model device.old).count (D.Device.model device.old).shown (sizes g)) (D.Device.model device.old) (D.Device.model device.new) }
{
    if device.count() < g.blocks {
        return Err(Refusal::SmallDevice(g.blocks));
    }
    match read_slot(device, &g, ROOT.slot)? {
        Some(root) if is_root(&root) => Ok(g),
        _ => Err(Refusal::BadCard(BlockNo(1))),
    }
}

// The geometry of the card on a device, or the refusal that answers each call.
// It is called, and not copied into `open`: over one call the compiler sees that the card is written whole, and doesn't
// fill it with zeros first.
#[inline(never)]
pub fn open_card<D: Device>(device: &mut D) -> Result<Geometry, Refusal>
    ensures { Opening result (opening (D.Device.model device.old).count (D.Device.model device.old).shown) (D.Device.model device.old) (D.Device.model device.new) }
{
    if device.count() == 0 {
        return Err(Refusal::BadCard(BlockNo(0)));
    }
    let block = device.read(BlockNo(0))?;
    let g = parse_cover(&block).ok_or(Refusal::BadCard(BlockNo(0)))?;
    open_sized(device, g)
}
