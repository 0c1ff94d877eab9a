// A card image that is only looked at.
ghost use Rattle.std.specs.Prelude.{◌≡◌, None};
ghost use Rattle.device.specs.Answers.{Read, Write, Sync};
ghost use Rattle.device.specs.Plain.{block, blocks_in};
ghost use Rattle.rule.specs.Agree.{same_bytes};
ghost use Rattle.screen.specs.Image.{differs, looked_at};

use base::number::BlockNo;
use device::Device;
use device::fault::{Fault, Synced, WHOLE};
use device::plain::whole_blocks;
use device::put::Put;

// The whole blocks of an image, at most 4096. A write that would change a block never lands: the power is gone with it.
// The last write is kept, so that what may stand is told.
#[derive(Drop)]
pub struct Image<'a> {
    bytes: &'a [u8],
    last: Option<Put>,
}

// The bytes of a block: fewer than 512 only past the image's whole blocks.
fn part(image: &[u8], b: u16) -> &[u8]
    ensures { result.now ≡ block image.now b }
{
    let start = (512 * b as usize).min(image.len());
    let end = (start + 512).min(image.len());
    &image[start..end]
}

impl<'a> Image<'a> {
    pub fn new(bytes: &'a [u8]) -> Image<'a>
        ensures { (result.bytes.now ≡ bytes.now) × (result.last ≡ None) }
    {
        Image { bytes, last: None }
    }

    // Whether the last write would change its block.
    fn is_off(&self) -> bool
        ensures { result ≡ differs self.now.bytes.now self.now.last }
    {
        let Some(put) = &self.last else {
            return false;
        };
        *put.bytes.as_slice() != *part(self.bytes, put.block.0)
    }
}

impl<'a> Device for Image<'a> {
    ghost model = { λ i. looked_at i.bytes.now i.last };

    fn count(&self) -> u16 {
        whole_blocks(self.bytes)
    }

    fn read(&mut self, at: BlockNo) -> Result<[u8; 512], Fault>
        ensures { Read at result (looked_at self.old.bytes.now self.old.last) (looked_at self.new.bytes.now self.new.last) }
    {
        if self.is_off() {
            return Err(Fault::PowerGone(at));
        }
        if at.0 >= whole_blocks(self.bytes) {
            return Err(Fault::NoSuchBlock(at));
        }
        let mut out = [0u8; 512];
        out.copy_from_slice(part(self.bytes, at.0));
        Ok(out)
    }

    fn write(&mut self, at: BlockNo, bytes: &[u8; 512]) -> Result<(), Fault>
        ensures { Write at bytes.now result (looked_at self.old.bytes.now self.old.last) (looked_at self.new.bytes.now self.new.last) }
    {
        if self.is_off() {
            return Err(Fault::PowerGone(at));
        }
        if at.0 >= whole_blocks(self.bytes) {
            return Err(Fault::NoSuchBlock(at));
        }
        self.last = Some(Put {
            block: at,
            bytes: *bytes,
        });
        if self.is_off() {
            return Err(Fault::PowerGone(at));
        }
        Ok(())
    }

    fn sync(&mut self) -> Result<Synced, Fault>
        ensures { Sync result (looked_at self.old.bytes.now self.old.last) (looked_at self.new.bytes.now self.new.last) }
    {
        if self.is_off() {
            return Err(Fault::PowerGone(WHOLE));
        }
        Ok(Synced::Settled)
    }
}
