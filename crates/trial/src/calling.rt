// One call, made on a card.
ghost use Rattle.std.specs.Prelude.{IfOk};
ghost use Rattle.history.specs.Events.{State, Event, Step, closed};
ghost use Rattle.card.specs.Opened.{on as opened_on};
ghost use Rattle.card.specs.Surveyed.{on};
ghost use Rattle.trial.specs.Stands.{on as stands};
ghost use Rattle.trial.specs.Tells.{TellsReading, TellsChanging, Does};

use crate::answer::Answer;
use crate::call::{Call, Changing, Reading};
use crate::stand::Stand;
use crate::zeros::copies;
use card::opened::{Opened, open};
use card::readable::Readable;
use card::surveyed::Surveyed;
use device::Device;
use listing::line::{NO_DAMAGE, NO_ENTRY};
use power::PowerCut;
use std::alloc::{AllocError, Global};

// A reading call, with lines or a buffer of zeros where it fills some.
pub(crate) fn read<R: Readable>(
    heap: Global,
    card: &mut R,
    call: &Reading,
) -> Result<Answer, AllocError>
    ensures { IfOk result (λ a. (e : Event) × TellsReading call.now a e × Step (R.Readable.on card.old) e (R.Readable.on card.new)) }
{
    match call {
        Reading::Find { folder, name } => Ok(Answer::Handle(card.find(folder, name))),
        Reading::Path { path } => Ok(Answer::Path(card.path(path))),
        Reading::Status { handle } => Ok(Answer::Status(card.status(handle))),
        Reading::List { folder, lines } => {
            let mut room = copies(heap, NO_ENTRY, *lines)?;
            let count = card.list(folder, &mut room);
            Ok(Answer::Entries(count, room))
        }
        Reading::Damage { lines } => {
            let mut room = copies(heap, NO_DAMAGE, *lines)?;
            let count = card.damage(&mut room);
            Ok(Answer::Damage(count, room))
        }
        Reading::Read { file, leaf, room } => {
            let mut buffer = copies(heap, 0, *room)?;
            let used = card.read(file, *leaf, &mut buffer);
            Ok(Answer::Leaf(used, buffer))
        }
    }
}

// A call of a surveyed card alone.
pub(crate) fn change<D: Device>(card: &mut Surveyed<D>, call: &Changing) -> Answer
    ensures { (e : Event) × TellsChanging call.now result e × Step (on card.old) e (on card.new) }
{
    match call {
        Changing::Space => Answer::Space(card.space()),
        Changing::Create { kind, folder, name } => {
            Answer::Handle(card.create(*kind, folder, name))
        }
        Changing::Write { file, leaf, bytes } => Answer::Changed(card.write(file, *leaf, bytes)),
        Changing::Shorten { file, n } => Answer::Changed(card.shorten(file, *n)),
        Changing::Remove { folder, name } => Answer::Changed(card.remove(folder, name)),
        Changing::Sync => Answer::Changed(card.sync()),
    }
}

// A call while the card is closed.
fn on_closed<D: PowerCut>(mut device: D, call: &Call) -> (Stand<D>, Answer)
    ensures { Does call.now result.1 (record { device = D.Device.model device; card = closed }) (stands result.0) }
{
    match call {
        Call::Open => (Stand::Opened(open(device)), Answer::Done),
        Call::Cut(landing) => {
            device.cut(landing);
            (Stand::Closed(device), Answer::Done)
        }
        Call::Trouble(trouble) => {
            device.set_trouble(trouble);
            (Stand::Closed(device), Answer::Done)
        }
        _ => (Stand::Closed(device), Answer::NotNow),
    }
}

// A call while the card is opened, and not yet surveyed.
fn on_opened<D: PowerCut + Drop>(
    heap: Global,
    mut card: Opened<D>,
    call: &Call,
) -> Result<(Stand<D>, Answer), AllocError>
    ensures { IfOk result (λ r. Does call.now r.1 (opened_on card) (stands r.0)) }
{
    match call {
        Call::Step => {
            let answer = card.step();
            Ok((Stand::Opened(card), Answer::Surveying(answer)))
        }
        Call::End => Ok((Stand::Surveyed(card.end()), Answer::Done)),
        Call::Read(reading) => {
            let answer = read(heap, &mut card, reading)?;
            Ok((Stand::Opened(card), answer))
        }
        Call::Cut(landing) => Ok((Stand::Closed(card.cut(landing)), Answer::Done)),
        _ => Ok((Stand::Opened(card), Answer::NotNow)),
    }
}

// A call while the card is surveyed.
fn on_surveyed<D: PowerCut + Drop>(
    heap: Global,
    mut card: Surveyed<D>,
    call: &Call,
) -> Result<(Stand<D>, Answer), AllocError>
    ensures { IfOk result (λ r. Does call.now r.1 (on card) (stands r.0)) }
{
    match call {
        Call::Read(reading) => {
            let answer = read(heap, &mut card, reading)?;
            Ok((Stand::Surveyed(card), answer))
        }
        Call::Change(changing) => {
            let answer = change(&mut card, changing);
            Ok((Stand::Surveyed(card), answer))
        }
        Call::Cut(landing) => Ok((Stand::Closed(card.cut(landing)), Answer::Done)),
        _ => Ok((Stand::Surveyed(card), Answer::NotNow)),
    }
}

// Makes a call, if it fits the moment.
pub(crate) fn make<D: PowerCut + Drop>(
    heap: Global,
    stand: Stand<D>,
    call: &Call,
) -> Result<(Stand<D>, Answer), AllocError>
    ensures { IfOk result (λ r. Does call.now r.1 (stands stand) (stands r.0)) }
{
    match stand {
        Stand::Closed(device) => Ok(on_closed(device, call)),
        Stand::Opened(card) => on_opened(heap, card, call),
        Stand::Surveyed(card) => on_surveyed(heap, card, call),
    }
}
