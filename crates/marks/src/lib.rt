// What a surveyed card keeps in memory of its blocks: of each slot whether it is reached, of each body whether it is held.
#![tactic(auto)]

ghost use Rattle.marks.specs.Laws.{MarksTell};

pub mod mark;
mod places;

// Marks that agree with the blocks tell what the blocks tell.
pub fn marks_tell()
    ensures { MarksTell }
{}
