// The plain card, over bytes that the caller lends. It settles each write and never loses power.
ghost use Rattle.std.specs.Prelude.{◌≡◌, ◌*◌, ◌/◌, ◌<◌, min, length, Ok};
ghost use Rattle.device.specs.Answers.{Read, Write, Sync};
ghost use Rattle.device.specs.Plain.{plain, block, blocks_in, stored, plain_read, plain_write, plain_after};
ghost use Rattle.device.specs.declared.fault.Synced.TheVariants.{Settled as SettledAnswer};

use crate::Device;
use crate::fault::{Fault, Synced};
use base::number::BlockNo;

// The whole blocks of an image, at most 4096. What is left of the image is never touched.
#[derive(Drop)]
pub struct Plain<'a> {
    image: &'a mut [u8],
}

// How many blocks an image has: the whole ones, at most 4096.
pub fn whole_blocks(image: &[u8]) -> u16
    ensures { result ≡ blocks_in image.now }
{
    (image.len() / 512).min(4096) as u16
}

impl<'a> Plain<'a> {
    pub fn new(image: &'a mut [u8]) -> Plain<'a>
        ensures { (result.image.now ≡ image.old) × (result.image.ghost_name ≡ image.entry.ghost_name) }
    {
        Plain { image }
    }

    // The image, to be looked at from outside.
    pub fn image(&self) -> &[u8]
        ensures { result.now ≡ self.now.image.now }
    {
        self.image
    }

    fn blocks(&self) -> u16
        ensures { result ≡ blocks_in self.now.image.now }
    {
        whole_blocks(self.image)
    }

    fn fetch(&self, b: u16) -> [u8; 512]
        requires { b < length self.now.image.now / 512 }
        ensures { result ≡ block self.now.image.now b }
    {
        let (blocks, _) = self.image.as_chunks::<512>();
        blocks[b as usize]
    }
}

// Kept: the library says nothing of what a slice ends as after as_chunks_mut, so no proof closes over it.
fn store(image: &mut [u8], b: u16, bytes: &[u8; 512])
    requires { b < length image.old / 512 }
    ensures { image.new ≡ stored image.old b bytes.now }
{
    let start = 512 * b as usize;
    image[start..start + 512].copy_from_slice(bytes);
}

impl<'a> Device for Plain<'a> {
    ghost model = { λ p. plain p.image.now };

    fn count(&self) -> u16 {
        self.blocks()
    }

    fn read(&mut self, at: BlockNo) -> Result<[u8; 512], Fault>
        ensures answer { Read at result (plain self.old.image.now) (plain self.new.image.now) }
        ensures exact { result ≡ plain_read self.old.image.now at }
        ensures image { self.new.image.now ≡ self.old.image.now }
        ensures lender { self.new.image.ghost_name ≡ self.old.image.ghost_name }
    {
        if at.0 >= self.blocks() {
            return Err(Fault::NoSuchBlock(at));
        }
        Ok(self.fetch(at.0))
    }

    fn write(&mut self, at: BlockNo, bytes: &[u8; 512]) -> Result<(), Fault>
        ensures answer { Write at bytes.now result (plain self.old.image.now) (plain self.new.image.now) }
        ensures exact { result ≡ plain_write tt self.old.image.now at }
        ensures image { self.new.image.now ≡ plain_after self.old.image.now at bytes.now }
        ensures lender { self.new.image.ghost_name ≡ self.old.image.ghost_name }
    {
        if at.0 >= self.blocks() {
            return Err(Fault::NoSuchBlock(at));
        }
        store(self.image, at.0, bytes);
        Ok(())
    }

    fn sync(&mut self) -> Result<Synced, Fault>
        ensures answer { Sync result (plain self.old.image.now) (plain self.new.image.now) }
        ensures exact { result ≡ Ok SettledAnswer }
        ensures image { self.new.image.now ≡ self.old.image.now }
        ensures lender { self.new.image.ghost_name ≡ self.old.image.ghost_name }
    {
        Ok(Synced::Settled)
    }
}
