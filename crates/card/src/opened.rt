// A card only opened: it can be read and surveyed. Whatever a call does is said as a step of the card's history.
ghost use Rattle.std.specs.Prelude.{◌≡◌, ◌+◌, ◌≤◌, Err};
ghost use Rattle.history.specs.Events.{Opens, closed};
ghost use Rattle.rule.specs.Changing.{last_identity};
ghost use Rattle.card.specs.Once.{Seen-prop};
ghost use Rattle.card.specs.Valid.{Seen, opened_state};

use crate::inner::{Core, Status};
use crate::progress::Progress;
use crate::readable::Readable;
use crate::surveyed::Surveyed;
use base::number::{Identity, LeafNo};
use base::owner::Handle;
use base::refusal::{PathRefusal, Refusal};
use change::plan::Memory;
use device::Device;
use layout::geometry::Geometry;
use listing::line::{DamageLine, EntryLine};
use marks::mark::Marks;
use power::PowerCut;

// A card that can be read, and surveyed: `seen` says that what its survey has learned so far is true of the blocks shown.
#[derive(Drop)]
pub struct Opened<D: Device> {
    core: Core<D>,
    progress: Progress,
    pub ghost seen: { Seen core.ready progress (D.Device.model core.device) } by { Seen-prop core.ready progress (D.Device.model core.device) },
}

// How a survey stands: how many blocks remain to be examined, and the highest identity seen so far.
#[derive(Clone, Copy)]
pub struct Surveying {
    pub remain: u16,
    pub highest: Identity,
}

// Opens the card on a device, and takes the device for good. Never refuses: a bad card answers each call with why it is
// bad. To be called once after each power-on or accepted format.
pub fn open<D: Device>(device: D) -> Opened<D>
    ensures opens { Opens (record { device = D.Device.model device; card = closed }) (opened_state result.core.ready result.progress (D.Device.model result.core.device)) }
{
    Opened {
        core: Core::open(device),
        progress: Progress::start(),
    }
}

impl<D: Device> Opened<D> {
    ghost use Rattle.std.specs.Result.{result_map_both};
    ghost use Rattle.history.specs.Events.{Surveys, Ends};
    ghost use Rattle.card.specs.Opened.{on};
    ghost use Rattle.card.specs.Surveyed.{on as surveyed_on};
    ghost use Rattle.card.specs.Views.{surveying_view};

    // The device, to be looked at from outside.
    pub fn device(&self) -> &D
        ensures { result.now ≡ self.now.core.device }
    {
        &self.core.device
    }

    // Examines the next block, if one remains; answers how many remain then, and the highest identity seen so far.
    pub fn step(&mut self) -> Result<Surveying, Refusal>
        ensures surveys { Surveys (on self.old) (result_map_both surveying_view (λ e. e) result) (on self.new) }
    {
        let g = self.core.ready?;
        let next = self.progress.next;
        if next >= g.blocks {
            return Ok(Surveying {
                remain: 0,
                highest: self.progress.highest,
            });
        }
        let remain = g.blocks - next - 1;
        let examined = self.progress.examine_next(&mut self.core.device, &g);
        self.core.keep(examined)?;
        Ok(Surveying {
            remain,
            highest: self.progress.highest,
        })
    }

    // Examines the blocks that remain, and gives the surveyed card. Never refuses: a card that is bad, or meets power gone
    // here, answers so from then on.
    pub fn end(self) -> Surveyed<D>
        ensures ends { Ends (on self) (surveyed_on result) }
    {
        let Opened { core, mut progress } = self;
        let Core { mut device, ready } = core;
        let highest = progress.highest;
        let g = match ready {
            Ok(g) => g,
            Err(refusal) => return unsurveyed(device, refusal, highest),
        };
        if let Err(refusal) = progress.examine_rest(&mut device, &g) {
            return unsurveyed(device, refusal, highest);
        }
        Surveyed {
            core: Core { device, ready },
            memory: first_memory(&g, progress.highest),
            marks: progress.survey.finish(&g),
        }
    }
}

impl<D: Device> Readable for Opened<D> {
    ghost use Rattle.card.specs.Opened.{on as opened_on};

    ghost on = { λ c. opened_on c };

    fn find(&mut self, folder: &Handle, name: &[u8]) -> Result<Handle, Refusal> {
        self.core.find(folder, name)
    }

    fn path(&mut self, path: &[u8]) -> Result<Handle, PathRefusal> {
        self.core.path(path)
    }

    fn list(&mut self, folder: &Handle, lines: &mut [EntryLine]) -> Result<usize, Refusal> {
        self.core.list(folder, lines)
    }

    fn status(&mut self, handle: &Handle) -> Result<Status, Refusal> {
        self.core.status(handle)
    }

    fn damage(&mut self, lines: &mut [DamageLine]) -> Result<usize, Refusal> {
        self.core.damage(lines)
    }

    fn read(&mut self, handle: &Handle, leaf: LeafNo, buffer: &mut [u8]) -> Result<usize, Refusal> {
        self.core.read(handle, leaf, buffer)
    }
}

impl<D: PowerCut> Opened<D> {
    ghost use Rattle.device.specs.Model.{Cut};

    // The plug is pulled: the card is over, and the device comes back as the cut left it, to be opened anew.
    pub fn cut(self, landing: &[u16]) -> D
        ensures { Cut (D.Device.model self.core.device) (D.Device.model result) }
    {
        self.core.cut(landing)
    }
}

// The memory at the end of a survey: the cursors start at slot 0 and at the first body.
fn first_memory(g: &Geometry, highest: Identity) -> Memory
    ensures memory { result ≡ record { highest = highest; next_slot = 0; next_body = g.now.slots + 1 } }
    ensures narrow { highest.0 ≤ last_identity }
{
    Memory {
        highest,
        next_slot: 0,
        next_body: g.slots + 1,
    }
}

// A surveyed card that answers each call with why it is bad, or with the power gone that it met.
fn unsurveyed<D: Device>(device: D, refusal: Refusal, highest: Identity) -> Surveyed<D>
    ensures { (result.core.device ≡ device) × (result.core.ready ≡ Err refusal) × (result.memory ≡ record { highest = highest; next_slot = 0; next_body = 0 }) }
{
    Surveyed {
        core: Core {
            device,
            ready: Err(refusal),
        },
        memory: Memory {
            highest,
            next_slot: 0,
            next_body: 0,
        },
        marks: Marks::none(),
    }
}
