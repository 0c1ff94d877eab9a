// The numbers of a slot, taken out of its block, so that the slot can be written anew with more or fewer.
ghost use Rattle.std.specs.Prelude.{◌≡◌, ◌<◌, ◌≤◌, length, MatchOption};
ghost use Rattle.layout.specs.View.{all_numbers};
ghost use Rattle.encode.specs.Heads.{plain};

use arrayvec::ArrayVec;
use base::number::{BlockNo, LeafNo};
use layout::block::Slot;

// None where there are more than 64.
pub fn copy_numbers(slot: &Slot) -> Option<ArrayVec<BlockNo, 64>>
    ensures { MatchOption result (64 < length (all_numbers slot.now.numbers.now)) (λ n. (length n.items ≤ 64) × (plain n.items ≡ all_numbers slot.now.numbers.now)) }
{
    let count = slot.count();
    if count > 64 {
        return None;
    }
    let mut all = ArrayVec::new();
    for k in 0..count {
        all.push(slot.number(LeafNo(k as u16)).unwrap());
    }
    Some(all)
}
