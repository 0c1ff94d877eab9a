// A whole life of a card.
ghost use Rattle.std.specs.Prelude.{◌≡◌, Err, IfOk};
ghost use Rattle.device.specs.Model.{Model};
ghost use Rattle.format.specs.Formats.{Formats};
ghost use Rattle.history.specs.Events.{closed};
ghost use Rattle.trial.specs.Stands.{on};
ghost use Rattle.trial.specs.Record.{Follows, Lived};
ghost use Rattle.base.specs.declared.refusal.Refusal.{Refusal as Refused};

use crate::answer::Answer;
use crate::call::Call;
use crate::calling::make;
use crate::stand::Stand;
use base::refusal::Refusal;
use device::Device;
use format::format;
use power::PowerCut;
use std::alloc::{AllocError, Global};

// Why there is no record: the format was refused, or the program has no memory left.
#[derive(Clone, Copy)]
pub enum Stopped {
    Format(Refusal),
    Memory(AllocError),
}

impl From<Refusal> for Stopped {
    ghost use Rattle.trial.specs.declared.run.Stopped.TheVariants.{Format};

    ghost from_gives = { λ e s. s ≡ Format e };

    fn from(refusal: Refusal) -> Stopped {
        Stopped::Format(refusal)
    }
}

impl From<AllocError> for Stopped {
    ghost use Rattle.trial.specs.declared.run.Stopped.TheVariants.{Memory};

    ghost from_gives = { λ e s. s ≡ Memory e };

    fn from(error: AllocError) -> Stopped {
        Stopped::Memory(error)
    }
}

// The card as the last call left it, and the answer to each call.
#[derive(Drop)]
pub struct Life<D: Device> {
    pub stand: Stand<D>,
    pub answers: Vec<Answer>,
}

// Makes the calls, one after another, and answers what each of them answered.
fn live<D: PowerCut + Drop>(heap: Global, device: D, calls: &[Call]) -> Result<Life<D>, AllocError>
    ensures { IfOk result (λ l. Follows (record { device = D.Device.model device; card = closed }) calls.now l.answers.items (on l.stand)) }
{
    let mut stand = Stand::Closed(device);
    let mut answers = Vec::new(heap);
    for call in calls {
        let (after, answer) = make(heap, stand, call)?;
        stand = after;
        answers.push(answer)?;
    }
    Ok(Life { stand, answers })
}

// Formats a card of so many blocks and slots on a device, and makes the calls on it, one after another.
pub fn run<D: PowerCut + Drop>(
    heap: Global,
    mut device: D,
    blocks: u16,
    slots: u16,
    calls: &[Call],
) -> Result<Life<D>, Stopped>
    ensures lived { IfOk result (λ l. Lived blocks slots calls.now l.answers.items (on l.stand)) }
    ensures refused { (e : Refused) → result ≡ Err (Stopped.Format e) → (n : Model) × Formats blocks slots (D.Device.model device) (Err e) n }
{
    format(&mut device, blocks, slots)?;
    Ok(live(heap, device, calls)?)
}
