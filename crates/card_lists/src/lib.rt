// The lists of a card: a folder's entries, and damage. Lines that power gone leaves are all zero.
#![tactic(auto)]

pub mod asked;
pub mod line;

ghost use Rattle.std.specs.Prelude.{◌≡◌, length, replicate, if◌then◌else◌, Ok};
ghost use Rattle.layout.specs.Sizes.{sizes};
ghost use Rattle.card_lists.specs.Ready.{Fitting, kept_after, Listing};
ghost use Rattle.card_lists.specs.Lined.{gone, Lined};

use crate::asked::Asked;
use crate::line::Line;
use base::refusal::Refusal;
use device::Device;
use layout::geometry::Geometry;
use listing::list::fill_lines;

fn is_gone(answer: &Result<usize, Refusal>) -> bool
    ensures { result ≡ gone answer.now }
{
    matches!(answer, Err(e) if e.is_power_gone())
}

// Makes every line zero, if the answer is power gone.
fn zero_if_gone<L: Line>(answer: &Result<usize, Refusal>, lines: &mut [L])
    ensures { lines.new ≡ (if gone answer.now then replicate (length lines.old) L.zero else lines.old) }
{
    if is_gone(answer) {
        fill_lines(lines, L::zero());
    }
}

// Fills the lines with what is asked for and answers its whole number.
// Kept: the device and the geometry are two parameters: a struct that lends the device needs in each method a clause more, that it lends the same one.
pub fn list_all<A: Asked, D: Device>(
    asked: &A,
    device: &mut D,
    g: &Geometry,
    lines: &mut [A::Line],
) -> Result<usize, Refusal>
    ensures { Lined A.line_of A.Line.zero g.now (A.rule asked.now (Ok (sizes g.now)) (D.Device.model device.old).shown) result (D.Device.model device.old) (D.Device.model device.new) lines.old lines.new }
{
    let answer = asked.fill(device, g, lines);
    zero_if_gone(&answer, lines);
    answer
}

// Keeps the refusal of an answer that is power gone.
fn keep_gone(ready: &mut Result<Geometry, Refusal>, answer: &Result<usize, Refusal>)
    ensures { ready.new ≡ kept_after answer.now ready.old }
{
    if let Err(e) = answer {
        if e.is_power_gone() {
            *ready = Err(*e);
        }
    }
}

// The list of a card: `ready` has its geometry, or the refusal that answers each call. Power gone is kept there.
pub fn list_on<A: Asked, D: Device>(
    asked: &A,
    device: &mut D,
    ready: &mut Result<Geometry, Refusal>,
    lines: &mut [A::Line],
) -> Result<usize, Refusal>
    ensures { Fitting ready.old (D.Device.model device.old) → Listing A.line_of A.Line.zero (A.rule asked.now) ready.old (D.Device.model device.old) result ready.new (D.Device.model device.new) lines.old lines.new }
{
    match *ready {
        Ok(g) => {
            let answer = list_all(asked, device, &g, lines);
            keep_gone(ready, &answer);
            answer
        }
        Err(e) => {
            let answer = Err(e);
            zero_if_gone(&answer, lines);
            answer
        }
    }
}
