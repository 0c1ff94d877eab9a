// Several blocks written as one effect.
ghost use Rattle.std.specs.Prelude.{◌≡◌};
ghost use Rattle.device.specs.Effect.{first_outside, WriteAll, CutLeaves};

use crate::Device;
use crate::fault::Fault;
use crate::put::Put;
use base::number::BlockNo;

// The first of the puts whose block a device of `count` blocks has not.
fn outside(count: u16, puts: &[Put]) -> Option<BlockNo>
    ensures { result ≡ first_outside count puts.now }
{
    for put in puts {
        if put.block.0 >= count {
            return Some(put.block);
        }
    }
    None
}

// Writes the blocks in their order, or none where the device lacks one of them.
pub fn write_all<D: Device>(device: &mut D, puts: &[Put]) -> Result<(), Fault>
    ensures answer { WriteAll puts.now result (D.Device.model device.old) (D.Device.model device.new) }
    ensures cut { CutLeaves puts.now (D.Device.model device.old) (D.Device.model device.new) }
{
    if let Some(at) = outside(device.count(), puts) {
        return Err(Fault::NoSuchBlock(at));
    }
    for put in puts {
        device.write(put.block, &put.bytes)?;
    }
    Ok(())
}
