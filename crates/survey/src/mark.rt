// The end of a survey: the marks of what is held.
ghost use Rattle.std.specs.Prelude.{◌≡◌, ℕ, is_some, None, slice_index_or};
ghost use Rattle.survey.specs.Known.{body_mark_by};

use base::number::SlotNo;
use base::owner::Back;
use marks::mark::SlotMark;

fn is_marked(marks: &[Option<SlotMark>; 256], slot: SlotNo) -> bool
    ensures { result ≡ is_some (slice_index_or marks.now slot.0 None) }
{
    matches!(marks.get(slot.0 as usize), Some(Some(_)))
}

fn body_mark(marks: &[Option<SlotMark>; 256], line: Option<Back>) -> Option<Back>
    ensures { result ≡ body_mark_by marks.now line }
{
    let line = line?;
    is_marked(marks, line.owner.slot).then_some(line)
}

// The marks of the blocks, by their back lines and the marks of the slots.
pub(crate) fn mark_bodies(
    bodies: &[Option<Back>; 4096],
    marks: &[Option<SlotMark>; 256],
) -> [Option<Back>; 4096]
    ensures { (b : ℕ) → slice_index_or result b None ≡ body_mark_by marks.now (slice_index_or bodies.now b None) }
{
    let mut held = *bodies;
    for mark in held.iter_mut() {
        *mark = body_mark(marks, *mark);
    }
    held
}
