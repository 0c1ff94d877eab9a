// The devices over an image, the outermost first, as one device.
ghost use Rattle.std.specs.Prelude.{◌≡◌};
ghost use Rattle.cardscript.specs.Stacks.{stacked, below_all, Fresh};

use base::number::BlockNo;
use buffered::buffered::Buffered;
use device::Device;
use device::failing::Failing;
use device::fault::{Fault, Synced};
use device::plain::Plain;
use script::command::Layers;

#[derive(Drop)]
pub enum Stack<'a> {
    Plain(Plain<'a>),
    Buffered(Buffered<Plain<'a>>),
    Failing(Failing<Plain<'a>>),
    BufferedFailing(Buffered<Failing<Plain<'a>>>),
    FailingBuffered(Failing<Buffered<Plain<'a>>>),
}

impl<'a> Stack<'a> {
    // The devices as they are at power-on.
    pub fn new(layers: Layers, image: &'a mut [u8]) -> Stack<'a>
        ensures layers { Fresh layers result }
        ensures image { below_all result ≡ image.old }
    {
        let plain = Plain::new(image);
        match layers {
            Layers::Plain => Stack::Plain(plain),
            Layers::Buffered => Stack::Buffered(Buffered::new(plain)),
            Layers::Failing(k) => Stack::Failing(Failing::new(plain, k)),
            Layers::BufferedFailing(k) => {
                Stack::BufferedFailing(Buffered::new(Failing::new(plain, k)))
            }
            Layers::FailingBuffered(k) => {
                Stack::FailingBuffered(Failing::new(Buffered::new(plain), k))
            }
        }
    }

    // The image below every layer.
    pub fn image(&self) -> &[u8]
        ensures { result.now ≡ below_all self.now }
    {
        match self {
            Stack::Plain(card) => card.image(),
            Stack::Buffered(card) => card.below().image(),
            Stack::Failing(card) => card.below().image(),
            Stack::BufferedFailing(card) => card.below().below().image(),
            Stack::FailingBuffered(card) => card.below().below().image(),
        }
    }
}

impl<'a> Device for Stack<'a> {
    ghost model = { λ s. stacked s };

    fn count(&self) -> u16 {
        match self {
            Stack::Plain(card) => card.count(),
            Stack::Buffered(card) => card.count(),
            Stack::Failing(card) => card.count(),
            Stack::BufferedFailing(card) => card.count(),
            Stack::FailingBuffered(card) => card.count(),
        }
    }

    fn read(&mut self, at: BlockNo) -> Result<[u8; 512], Fault> {
        match self {
            Stack::Plain(card) => card.read(at),
            Stack::Buffered(card) => card.read(at),
            Stack::Failing(card) => card.read(at),
            Stack::BufferedFailing(card) => card.read(at),
            Stack::FailingBuffered(card) => card.read(at),
        }
    }

    fn write(&mut self, at: BlockNo, bytes: &[u8; 512]) -> Result<(), Fault> {
        match self {
            Stack::Plain(card) => card.write(at, bytes),
            Stack::Buffered(card) => card.write(at, bytes),
            Stack::Failing(card) => card.write(at, bytes),
            Stack::BufferedFailing(card) => card.write(at, bytes),
            Stack::FailingBuffered(card) => card.write(at, bytes),
        }
    }

    fn sync(&mut self) -> Result<Synced, Fault> {
        match self {
            Stack::Plain(card) => card.sync(),
            Stack::Buffered(card) => card.sync(),
            Stack::Failing(card) => card.sync(),
            Stack::BufferedFailing(card) => card.sync(),
            Stack::FailingBuffered(card) => card.sync(),
        }
    }
}
