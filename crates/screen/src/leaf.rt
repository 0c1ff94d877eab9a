// The call for a program in C.
ghost use Rattle.std.specs.Prelude.{◌≡◌, ◌≤◌, length, Ok};
ghost use Rattle.rule.specs.Reading.{all_named, components, read_into};
ghost use Rattle.card.specs.Calls.{Fills};
ghost use Rattle.screen.specs.Screen.{screen_answer, told};

use crate::image::Image;
use base::number::LeafNo;
use base::refusal::Refusal;
use card::opened::open;
use card::readable::Readable;
use device::Device;
use walk::path::check_path;

// A leaf of the file at a path of good names, into the front of `out`, which has room for it; answers how many bytes.
// It stands apart from `look`, since a function fills its locals with zeros as it begins, and the card is a large one: what
// is refused before it is opened doesn't pay for it.
fn look_inside(image: &[u8], path: &[u8], leaf: LeafNo, out: &mut [u8]) -> Result<usize, Refusal>
    requires named { all_named 0 (components path.now) ≡ Ok tt }
    requires room { 496 ≤ length out.old }
    ensures { Fills (screen_answer image.now path.now leaf.0 (length out.old)) result out.old out.new }
{
    let mut card = open(Image::new(image));
    match card.path(path) {
        Ok(file) => card.read(&file, leaf, out),
        Err(e) => Err(e.lower),
    }
}

// A leaf of the file at a path, into the front of `out`; answers how many bytes. Path and room are looked at first.
fn look(image: &[u8], path: &[u8], leaf: LeafNo, out: &mut [u8]) -> Result<usize, Refusal>
    ensures { Fills (screen_answer image.now path.now leaf.0 (length out.old)) result out.old out.new }
{
    // Kept: a From of a path's refusal to a plain one would let any `?` drop the component unseen.
    if let Err(e) = check_path(path) {
        return Err(e.lower);
    }
    if out.len() < 496 {
        return Err(Refusal::BadLength(out.len()));
    }
    look_inside(image, path, leaf, out)
}

// A leaf of the file at a path of a card image, into the front of `out`: answers its length, at most 496, or 1,000 and
// the number of the refusal, which leaves `out` as it was.
// Kept: a program in C gets one number; `look` above has the answer as a Result.
pub fn gildreyk_leaf(image: &[u8], path: &[u8], leaf: u32, out: &mut [u8]) -> u32
    ensures answer { result ≡ told (screen_answer image.now path.now leaf (length out.old)) }
    ensures filled { out.new ≡ read_into out.old (screen_answer image.now path.now leaf (length out.old)) }
{
    // No slot has so many leaves: a number past 65,535 is refused as 65,535 is.
    let narrow = LeafNo(leaf.min(65535) as u16);
    match look(image, path, narrow, out) {
        Ok(length) => length as u32,
        Err(e) => 1000 + e.number() as u32,
    }
}
