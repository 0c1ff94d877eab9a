// The reading calls: an opened and a surveyed card have them both. Whatever a call does is said as a step of the card's
// history.
ghost use Rattle.std.specs.Prelude.{◌≡◌, ℕ, List, length};
ghost use Rattle.std.specs.Result.{result_map_both};
ghost use Rattle.base.specs.declared.refusal.Refusal.TheVariants.{PowerGone};
ghost use Rattle.history.specs.Events.{State, Reads};
ghost use Rattle.rule.specs.Check.{Answer};
ghost use Rattle.rule.specs.Reading as reading;
ghost use Rattle.tours.specs.Lists.{entry_row};
ghost use Rattle.tours.specs.Damage.{damage_row};
ghost use Rattle.card_lists.specs.Lined.{zero_entry, zero_damage};
ghost use Rattle.card_lists.specs.Ready.{LinesOf};
ghost use Rattle.card.specs.Calls.{Fills};
ghost use Rattle.card.specs.Views.{status_view};

use crate::inner::Status;
use base::number::LeafNo;
use base::owner::Handle;
use base::refusal::{PathRefusal, Refusal};
use listing::line::{DamageLine, EntryLine};

// A card that can be read. They work on slots that are not reached as well, and none of them writes.
pub trait Readable {
    // Where the card stands in its history.
    ghost on: { Self → State };

    // The child of a folder that has the name: the first sound entry, by leaf, then place.
    fn find(&mut self, folder: &Handle, name: &[u8]) -> Result<Handle, Refusal>
        ensures reads { Reads PowerGone (reading.find folder.now name.now) (on self.old) result (on self.new) };

    // The file or folder that a path leads to, from the root. A refusal tells the component too.
    fn path(&mut self, path: &[u8]) -> Result<Handle, PathRefusal>
        ensures reads { (i : ℕ) × Reads (λ b. record { lower = PowerGone b; component = i }) (reading.path path.now) (on self.old) result (on self.new) };

    // The sound entries of a folder, by leaf, then place, into the front of the lines; answers how many there are. Lines
    // beyond stay as they are, and all of them after a refusal, but power gone makes every line zero.
    fn list(&mut self, folder: &Handle, lines: &mut [EntryLine]) -> Result<usize, Refusal>
        ensures reads { (a : Answer (List reading.EntryLine)) × Reads PowerGone (reading.list folder.now) (on self.old) a (on self.new) × LinesOf entry_row zero_entry a result lines.old lines.new };

    // Kind, leaf count and parent.
    fn status(&mut self, handle: &Handle) -> Result<Status, Refusal>
        ensures reads { Reads PowerGone (reading.status handle.now) (on self.old) (result_map_both status_view (λ e. e) result) (on self.new) };

    // The leaves of reached slots that are not good, by slot and leaf, into the front of the lines, as `list` does.
    fn damage(&mut self, lines: &mut [DamageLine]) -> Result<usize, Refusal>
        ensures reads { (a : Answer (List reading.DamageLine)) × Reads PowerGone reading.damage (on self.old) a (on self.new) × LinesOf damage_row zero_damage a result lines.old lines.new };

    // A leaf of a file, into the front of a buffer of at least 496 bytes; answers how many. The rest of the buffer stays
    // as it is, and any refusal leaves all of it so.
    fn read(&mut self, handle: &Handle, leaf: LeafNo, buffer: &mut [u8]) -> Result<usize, Refusal>
        ensures reads { (a : Answer (List ℕ)) × Reads PowerGone (reading.read handle.now leaf.0 (length buffer.old)) (on self.old) a (on self.new) × Fills a result buffer.old buffer.new };
}
