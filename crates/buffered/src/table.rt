// The table of waiting blocks: 8 places, each free or with one block.
ghost use Rattle.std.specs.Prelude.{◌≡◌, ◌<◌, Some, MatchOption};
ghost use Rattle.buffered.specs.Buffered.{Absent, Vacant, Full, Empty};
ghost use Rattle.buffered.specs.Inner.{FoundPut, TopPut};

use base::number::BlockNo;
use device::put::Put;

// The first place at which a block waits, and the block as it waits there.
pub(crate) fn find(table: &[Option<Put>; 8], at: BlockNo) -> Option<(usize, &Put)>
    ensures { MatchOption result (Absent table.now at.0) (λ w. FoundPut table.now at.0 w.0 w.1.now) }
{
    for (place, waiting) in table.iter().enumerate() {
        if let Some(put) = waiting
            && put.block == at
        {
            return Some((place, put));
        }
    }
    None
}

// The first place that is free.
pub(crate) fn vacant(table: &[Option<Put>; 8]) -> Option<usize>
    ensures { MatchOption result (Full table.now) (Vacant table.now) }
{
    table.iter().position(Option::is_none)
}

// The place of the waiting block with the highest number, and the block as it waits there.
pub(crate) fn highest(table: &[Option<Put>; 8]) -> Option<(usize, &Put)>
    ensures { MatchOption result (Empty table.now) (λ w. TopPut table.now w.0 w.1.now) }
{
    let mut best = None;
    let mut top = BlockNo(0);
    for (place, waiting) in table.iter().enumerate() {
        if let Some(put) = waiting
            && put.block >= top
        {
            best = Some(place);
            top = put.block;
        }
    }
    let place = best?;
    let put = table[place].as_ref()?;
    Some((place, put))
}
