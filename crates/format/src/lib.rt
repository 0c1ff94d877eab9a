// Formatting: a new card on a device.
#![tactic(auto)]

ghost use Rattle.std.specs.Prelude.{◌≡◌, ◌≤◌};
ghost use Rattle.device.specs.Effect.{WriteAll};
ghost use Rattle.layout.specs.Format.{encode};
ghost use Rattle.layout.specs.Sizes.{sizes};
ghost use Rattle.format.specs.Formats.{new_block, new_card, Formats};

use base::number::{BlockNo, Identity, SlotNo};
use base::owner::{Handle, Kind};
use base::refusal::Refusal;
use device::Device;
use device::fault::Fault;
use encode::block::{encode_blank, encode_cover, encode_slot};
use layout::geometry::Geometry;

const ROOT: Handle = Handle {
    slot: SlotNo(0),
    identity: Identity(1),
};

// The bytes of a block of a new card: the cover, an empty root, zeros.
fn new_block(g: &Geometry, at: u16) -> [u8; 512]
    ensures { result ≡ encode (new_block (sizes g.now) at) }
{
    match at {
        0 => encode_cover(g),
        1 => encode_slot(Kind::Folder, Identity(1), &ROOT, &[]).unwrap(),
        _ => encode_blank(),
    }
}

// Writes the blocks of a new card, in the order of their numbers.
fn write_new<D: Device>(device: &mut D, g: &Geometry) -> Result<(), Fault>
    requires { g.now.blocks ≤ (D.Device.model device.old).count }
    ensures { WriteAll (new_card (sizes g.now)) result (D.Device.model device.old) (D.Device.model device.new) }
{
    for at in 0..g.blocks {
        device.write(BlockNo(at), &new_block(g, at))?;
    }
    Ok(())
}

// Makes a new card of so many blocks and slots: writes all of its blocks, then syncs. Blocks past the card are not touched.
pub fn format<D: Device>(device: &mut D, blocks: u16, slots: u16) -> Result<(), Refusal>
    ensures { Formats blocks slots (D.Device.model device.old) result (D.Device.model device.new) }
{
    let Some(g) = Geometry::new(blocks, slots) else {
        return Err(Refusal::BadLimits(blocks));
    };
    if device.count() < blocks {
        return Err(Refusal::SmallDevice(blocks));
    }
    write_new(device, &g)?;
    device.sync()?.landed()
}
