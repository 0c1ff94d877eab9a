// The laws of whole histories: definitions in specs/, theorems on the functions below.
// A function here computes nothing: what its contract says is proved whenever the crate is.
#![tactic(auto)]

ghost use Rattle.history.specs.Laws.{ReadsWhatWasWritten, FindsWhatWasMade, PathsLeadToWhatWasMade, SettledFilesStay, FormattedCardsOpen, SurveyedCardsKeepTrue};
ghost use Rattle.history.specs.Counts.{CallsCount};
ghost use Rattle.history.specs.Example.{ItHappens};

// What is read was written, what is found was made, and a file that a sync settled stays until it is changed,
// whatever each power cut leaves.
pub fn laws_stand()
    ensures reads { ReadsWhatWasWritten }
    ensures finds { FindsWhatWasMade }
    ensures paths { PathsLeadToWhatWasMade }
    ensures settled { SettledFilesStay }
{}

// A formatted card can be opened at every point, and what a surveyed card keeps is true of its device.
pub fn cards_stand()
    ensures opens { FormattedCardsOpen }
    ensures keeps { SurveyedCardsKeepTrue }
{}

// What the laws count as made: each accepted call with what it answered, and no call that was refused otherwise than by power gone.
pub fn deeds_stand()
    ensures { CallsCount }
{}

// There is a history: with a settled sync, a call broken off and a cut in its middle.
pub fn example_happens()
    ensures { ItHappens }
{}
