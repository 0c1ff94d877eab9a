// A surveyed card: it can be read and changed. Whatever a call does is said as a step of the card's history.
ghost use Rattle.std.specs.Prelude.{◌≡◌, ℕ, Some};
ghost use Rattle.std.specs.Option.{option_map};
ghost use Rattle.layout.specs.Format.{back as leaf_line};
ghost use Rattle.marks.specs.Marks.{with_gained};
ghost use Rattle.change.specs.Plans.{gained_block};
ghost use Rattle.card.specs.Once.{Known-prop};
ghost use Rattle.card.specs.Valid.{Known as IsKnown};

use crate::inner::{Core, Status};
use crate::readable::Readable;
use base::number::LeafNo;
use base::owner::{Back, Handle, Kind};
use base::refusal::{PathRefusal, Refusal};
use change::create::plan_create;
use change::drop::drop_leaves;
use change::known::Known;
use change::plan::{Created, Gained, Memory};
use change::remove::plan_remove;
use change::shorten::plan_shorten;
use change::write::plan_write;
use device::Device;
use listing::line::{DamageLine, EntryLine};
use marks::mark::{Marks, SlotMark};
use power::PowerCut;
use walk::path::check_name;

// `memory` has the highest identity and the two cursors, `marks` what is reached and held: both agree with the blocks shown.
#[derive(Drop)]
pub struct Surveyed<D: Device> {
    pub(crate) core: Core<D>,
    pub(crate) memory: Memory,
    pub(crate) marks: Marks,
    pub ghost known: { IsKnown core.ready memory marks (D.Device.model core.device) } by { Known-prop core.ready memory marks (D.Device.model core.device) },
}

// How many bodies and how many slots are free.
#[derive(Clone, Copy)]
pub struct Space {
    pub bodies: u16,
    pub slots: u16,
}

// Marks the leaf that a file or folder gained, if it gained one.
fn mark_gained(marks: &mut Marks, gained: Option<Gained>, owner: &Handle)
    ensures { (k : ℕ) → ((y : Gained) → gained ≡ Some y → y.leaf.0 ≡ k) → marks.new ≡ with_gained marks.old (option_map gained_block gained) (leaf_line owner.now k) }
{
    if let Some(gain) = gained {
        let back = Back {
            owner: *owner,
            leaf: gain.leaf,
        };
        marks.set_body(gain.block, Some(back));
    }
}

impl<D: Device> Surveyed<D> {
    ghost use Rattle.std.specs.Result.{result_map_both as mapped_answer};
    ghost use Rattle.base.specs.declared.refusal.Refusal.TheVariants.{PowerGone};
    ghost use Rattle.rule.specs.Changing as changing;
    ghost use Rattle.rule.specs.Reading as reading;
    ghost use Rattle.history.specs.Events.{Reads, Changes, Syncs};
    ghost use Rattle.card.specs.Surveyed.{on};
    ghost use Rattle.card.specs.Views.{space_view};

    // How many bodies and slots are free: no device call.
    pub fn space(&self) -> Result<Space, Refusal>
        ensures reads { Reads PowerGone reading.space (on self.now) (mapped_answer space_view (λ e. e) result) (on self.now) }
    {
        let g = self.core.ready?;
        Ok(Space {
            bodies: self.marks.bodies_left(&g),
            slots: self.marks.slots_left(&g),
        })
    }

    // Makes an empty file or folder in a folder, under a name that is not taken; answers its handle.
    pub fn create(&mut self, kind: Kind, folder: &Handle, name: &[u8]) -> Result<Handle, Refusal>
        ensures changes { Changes (changing.create kind folder.now name.now) (on self.old) result (on self.new) }
    {
        check_name(name)?;
        let g = self.core.ready?;
        let known = Known {
            geometry: g,
            memory: self.memory,
            marks: &self.marks,
        };
        let planned = plan_create(&mut self.core.device, &known, kind, folder, name);
        let accepted = self.core.keep(planned)?;
        self.core.commit(&accepted.plan, &mut self.memory)?;
        let Created { child, gained } = accepted.change;
        let mark = SlotMark {
            identity: child.identity,
            parent: *folder,
        };
        self.marks.set_slot(child.slot, Some(mark));
        mark_gained(&mut self.marks, gained, folder);
        Ok(child)
    }

    // A leaf of a file gets these bytes, at most 496: a good leaf below the count, or a new one at the count.
    pub fn write(&mut self, file: &Handle, leaf: LeafNo, bytes: &[u8]) -> Result<(), Refusal>
        ensures changes { Changes (changing.write file.now leaf.0 bytes.now) (on self.old) result (on self.new) }
    {
        if bytes.len() > 496 {
            return Err(Refusal::BadLength(bytes.len()));
        }
        let g = self.core.ready?;
        let known = Known {
            geometry: g,
            memory: self.memory,
            marks: &self.marks,
        };
        let planned = plan_write(&mut self.core.device, &known, file, leaf, bytes);
        let accepted = self.core.keep(planned)?;
        self.core.commit(&accepted.plan, &mut self.memory)?;
        mark_gained(&mut self.marks, accepted.change, file);
        Ok(())
    }

    // The file keeps its first n leaves.
    pub fn shorten(&mut self, file: &Handle, n: LeafNo) -> Result<(), Refusal>
        ensures changes { Changes (changing.shorten file.now n.0) (on self.old) result (on self.new) }
    {
        let g = self.core.ready?;
        let known = Known {
            geometry: g,
            memory: self.memory,
            marks: &self.marks,
        };
        let planned = plan_shorten(&mut self.core.device, &known, file, n);
        let accepted = self.core.keep(planned)?;
        self.core.commit(&accepted.plan, &mut self.memory)?;
        drop_leaves(&mut self.marks, &accepted.change, n);
        Ok(())
    }

    // Removes what the name leads to: a file, or a folder that has no sound entry.
    pub fn remove(&mut self, folder: &Handle, name: &[u8]) -> Result<(), Refusal>
        ensures changes { Changes (changing.remove folder.now name.now) (on self.old) result (on self.new) }
    {
        check_name(name)?;
        let g = self.core.ready?;
        let known = Known {
            geometry: g,
            memory: self.memory,
            marks: &self.marks,
        };
        let planned = plan_remove(&mut self.core.device, &known, folder, name);
        let accepted = self.core.keep(planned)?;
        self.core.commit(&accepted.plan, &mut self.memory)?;
        drop_leaves(&mut self.marks, &accepted.change, LeafNo(0));
        self.marks.set_slot(accepted.change.handle.slot, None);
        Ok(())
    }

    // Asks the device that all that is shown lands (a flush), and passes its answer on.
    #[tactic(auto, using(rule::proofs::Syncs::landed_is))]
    pub fn sync(&mut self) -> Result<(), Refusal>
        ensures syncs { Syncs (on self.old) result (on self.new) }
    {
        self.core.ready?;
        let answer = self.core.device.sync().map_err(Refusal::from);
        self.core.keep(answer)?.landed()
    }

    // The device, to be looked at from outside.
    pub fn device(&self) -> &D
        ensures { result.now ≡ self.now.core.device }
    {
        &self.core.device
    }
}

impl<D: Device> Readable for Surveyed<D> {
    ghost use Rattle.card.specs.Surveyed.{on as surveyed_on};

    ghost on = { λ c. surveyed_on c };

    fn find(&mut self, folder: &Handle, name: &[u8]) -> Result<Handle, Refusal> {
        self.core.find(folder, name)
    }

    fn path(&mut self, path: &[u8]) -> Result<Handle, PathRefusal> {
        self.core.path(path)
    }

    fn list(&mut self, folder: &Handle, lines: &mut [EntryLine]) -> Result<usize, Refusal> {
        self.core.list(folder, lines)
    }

    fn status(&mut self, handle: &Handle) -> Result<Status, Refusal> {
        self.core.status(handle)
    }

    fn damage(&mut self, lines: &mut [DamageLine]) -> Result<usize, Refusal> {
        self.core.damage(lines)
    }

    fn read(&mut self, handle: &Handle, leaf: LeafNo, buffer: &mut [u8]) -> Result<usize, Refusal> {
        self.core.read(handle, leaf, buffer)
    }
}

impl<D: PowerCut> Surveyed<D> {
    ghost use Rattle.device.specs.Model.{Cut};

    // The plug is pulled: the card is over, and the device comes back as the cut left it, to be opened anew.
    pub fn cut(self, landing: &[u16]) -> D
        ensures { Cut (D.Device.model self.core.device) (D.Device.model result) }
    {
        self.core.cut(landing)
    }
}
