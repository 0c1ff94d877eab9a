// What a cut does to a buffered card.
ghost use Rattle.buffered.specs.Laws.{CutBelowIsCut};

// A cut of the device below, with all that waits lost, is a cut of the buffered card.
pub fn cut_below_is_cut()
    ensures { CutBelowIsCut }
{}
