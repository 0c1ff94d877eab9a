// What opened and surveyed cards have in common: the device, and whether the card is good.
ghost use Rattle.std.specs.Prelude.{◌≡◌, ℕ, ◌≤◌, List, ◌++◌, length, drop};
ghost use Rattle.walk.specs.Copies.{front};
ghost use Rattle.card_lists.specs.Ready.{Fitting};
ghost use Rattle.card.specs.Once.{Fitting-prop};

use crate::file::read_file;
use crate::open::open_card;
use base::number::LeafNo;
use base::owner::{Handle, Kind};
use base::refusal::{PathRefusal, Refusal};
use device::Device;
use layout::geometry::Geometry;
use power::PowerCut;
use walk::handle::{find_child, read_handle};
use walk::leaf_copy::LeafCopy;
use walk::path::{at_component, check_name, check_path, walk_path};

// What a status tells: file or folder, how many leaves, and the folder that it is in.
#[derive(Clone, Copy)]
pub struct Status {
    pub kind: Kind,
    pub count: u16,
    pub parent: Handle,
}

// `ready` has the card's geometry, or the refusal that answers each call: the card is bad, or has met power gone.
#[derive(Drop)]
pub struct Core<D: Device> {
    pub device: D,
    pub ready: Result<Geometry, Refusal>,
    pub ghost fitting: { Fitting ready (D.Device.model device) } by { Fitting-prop ready (D.Device.model device) },
}

// Puts a leaf's bytes to the front of a buffer, and answers how many.
fn fill(buffer: &mut [u8], leaf: &LeafCopy) -> usize
    requires { 496 ≤ length buffer.old }
    ensures { (result ≡ length (front leaf.now)) × (buffer.new ≡ front leaf.now ++ drop (length (front leaf.now)) buffer.old) }
{
    let bytes = leaf.bytes();
    buffer[..bytes.len()].copy_from_slice(bytes);
    bytes.len()
}

impl<D: Device> Core<D> {
    ghost use Rattle.std.specs.Result.{result_map_both};
    ghost use Rattle.base.specs.declared.refusal.Refusal.TheVariants.{PowerGone};
    ghost use Rattle.rule.specs.Card.{opening};
    ghost use Rattle.rule.specs.Check.{Answer};
    ghost use Rattle.rule.specs.Reading as reading;
    ghost use Rattle.card_lists.specs.Ready.{ReadsOn};
    ghost use Rattle.card.specs.Calls.{CoreReads, Fills, kept_by, noted};
    ghost use Rattle.card.specs.Opening.{Opening};
    ghost use Rattle.card.specs.Views.{status_view};

    // Opens the card on a device.
    pub fn open(mut device: D) -> Core<D>
        ensures { Opening result.ready (opening (D.Device.model device).count (D.Device.model device).shown) (D.Device.model device) (D.Device.model result.device) }
    {
        let ready = open_card(&mut device);
        Core { device, ready }
    }

    // The card keeps a refusal, if it is power gone.
    fn note(&mut self, refusal: Refusal)
        ensures { (self.new.device ≡ self.old.device) × (self.new.ready ≡ noted refusal self.old.ready) }
    {
        if refusal.is_power_gone() {
            self.ready = Err(refusal);
        }
    }

    // Hands an answer on. The card keeps its refusal, if that is power gone.
    pub(crate) fn keep<A>(&mut self, answer: Result<A, Refusal>) -> Result<A, Refusal>
        ensures { (result ≡ answer) × (self.new.device ≡ self.old.device) × (self.new.ready ≡ kept_by answer self.old.ready) }
    {
        if let Err(refusal) = &answer {
            self.note(*refusal);
        }
        answer
    }

    // The child of a folder that has the name.
    pub fn find(&mut self, folder: &Handle, name: &[u8]) -> Result<Handle, Refusal>
        ensures reads { ReadsOn (reading.find folder.now name.now) self.old.ready (D.Device.model self.old.device) result self.new.ready (D.Device.model self.new.device) }
    {
        check_name(name)?;
        let g = self.ready?;
        let found = find_child(&mut self.device, &g, folder, name);
        Ok(self.keep(found)?.child.handle)
    }

    // Kind, leaf count and parent.
    pub fn status(&mut self, handle: &Handle) -> Result<Status, Refusal>
        ensures reads { ReadsOn (reading.status handle.now) self.old.ready (D.Device.model self.old.device) (result_map_both status_view (λ e. e) result) self.new.ready (D.Device.model self.new.device) }
    {
        let g = self.ready?;
        let answer = read_handle(&mut self.device, &g, handle);
        let slot = self.keep(answer)?;
        Ok(Status {
            kind: slot.kind,
            count: slot.count,
            parent: slot.parent,
        })
    }

    // A leaf of a file, into the front of a buffer of at least 496 bytes; answers how many.
    pub fn read(
        &mut self,
        handle: &Handle,
        leaf: LeafNo,
        buffer: &mut [u8],
    ) -> Result<usize, Refusal>
        ensures reads { (a : Answer (List ℕ)) × ReadsOn (reading.read handle.now leaf.0 (length buffer.old)) self.old.ready (D.Device.model self.old.device) a self.new.ready (D.Device.model self.new.device) × Fills a result buffer.old buffer.new }
    {
        if buffer.len() < 496 {
            return Err(Refusal::BadLength(buffer.len()));
        }
        let g = self.ready?;
        let answer = read_file(&mut self.device, &g, handle, leaf);
        let copy = self.keep(answer)?;
        let used = fill(buffer, &copy);
        Ok(used)
    }

    // The file or folder that a path leads to, from the root. A refusal tells the component too.
    pub fn path(&mut self, path: &[u8]) -> Result<Handle, PathRefusal>
        ensures reads { (i : ℕ) × CoreReads (λ b. record { lower = PowerGone b; component = i }) (reading.path path.now) self.old.ready (D.Device.model self.old.device) result self.new.ready (D.Device.model self.new.device) }
    {
        check_path(path)?;
        let g = at_component(0, self.ready)?;
        let answer = walk_path(&mut self.device, &g, path);
        if let Err(e) = &answer {
            self.note(e.lower);
        }
        answer
    }
}

impl<D: PowerCut> Core<D> {
    ghost use Rattle.device.specs.Model.{Cut};

    // The plug is pulled: the card is over, and the device comes back as the cut left it, to be opened anew.
    pub(crate) fn cut(self, landing: &[u16]) -> D
        ensures { Cut (D.Device.model self.device) (D.Device.model result) }
    {
        let Core { mut device, .. } = self;
        device.cut(landing);
        device
    }
}
