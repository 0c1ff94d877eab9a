// What every call of a card means: definitions in specs/, with worked cases and theorems on the functions below.
// A function here computes nothing: what its contract says is proved whenever the crate is.
#![tactic(auto)]

ghost use Rattle.rule.specs.Meaning.{FoundIsFound, GoodIsGood, ReachedIsReached, HeldIsHeld, FreeSlotIsNext, FreeBodyIsNext, NoSlotFree, NoBodyFree};
ghost use Rattle.rule.specs.Readings.{OpeningMeans, StepsAgree, SurveyCovers, CursorsStart, CreateKeepsRange, WriteKeepsRange, FindMeans, PathMeans, StatusMeans, ReadMeans, ListMeans, DamageMeans};
ghost use Rattle.rule.specs.Cases.{CasesHold};
ghost use Rattle.rule.specs.Broken.{FreshIdentityNeeded, UntakenNameNeeded, FreeBodyNeeded, EmptyFolderNeeded};
ghost use Rattle.rule.specs.Calls.{CreateMeans, WriteMeans, ShortenMeans, RemoveMeans, FormatMeans, CreateAccepted, WriteAccepted, ShortenAccepted, RemoveAccepted, WriteFull, CreateNoBody, CreateNoSlot, CreateOnce, WriteOnce, ShortenOnce, RemoveOnce, FormatOnce, PutsShow};

// What computes is the rule as the relations have it.
pub fn meaning_stands()
    ensures found { FoundIsFound }
    ensures good { GoodIsGood }
    ensures reached { ReachedIsReached }
    ensures held { HeldIsHeld }
{}

// A cursor gives the first that is free, from there on and round, and none only if all are taken.
pub fn cursors_stand()
    ensures slot { FreeSlotIsNext }
    ensures body { FreeBodyIsNext }
    ensures no_slot { NoSlotFree }
    ensures no_body { NoBodyFree }
{}

// A card opens when its cover and root say so; its survey finds the highest identity; its cursors stay in range.
pub fn surveys_stand()
    ensures opening { OpeningMeans }
    ensures steps { StepsAgree }
    ensures covers { SurveyCovers }
    ensures start { CursorsStart }
    ensures create { CreateKeepsRange }
    ensures write { WriteKeepsRange }
{}

// A reading call is accepted exactly when the relation holds, with that answer.
pub fn readings_stand()
    ensures find { FindMeans }
    ensures path { PathMeans }
    ensures status { StatusMeans }
    ensures read { ReadMeans }
    ensures list { ListMeans }
    ensures damage { DamageMeans }
{}

// An accepted plan says what is said of the call.
pub fn plans_stand()
    ensures creates { CreateMeans }
    ensures writes { WriteMeans }
    ensures shortens { ShortenMeans }
    ensures removes { RemoveMeans }
    ensures formats { FormatMeans }
{}

// And a call of which that can be said is accepted.
pub fn calls_are_accepted()
    ensures create { CreateAccepted }
    ensures write { WriteAccepted }
    ensures shorten { ShortenAccepted }
    ensures remove { RemoveAccepted }
{}

// A card that has no free body or slot for a call has none.
pub fn full_means_full()
    ensures write { WriteFull }
    ensures create_body { CreateNoBody }
    ensures create_slot { CreateNoSlot }
{}

// No call writes a block twice.
pub fn blocks_go_once()
    ensures create { CreateOnce }
    ensures write { WriteOnce }
    ensures shorten { ShortenOnce }
    ensures remove { RemoveOnce }
    ensures format { FormatOnce }
    ensures shows { PutsShow }
{}

// The worked cases hold.
pub fn cases_hold()
    ensures { CasesHold }
{}

// A plan that leaves a rule out gives a wrong answer after a cut or a later call.
pub fn rules_are_needed()
    ensures identity { FreshIdentityNeeded }
    ensures name { UntakenNameNeeded }
    ensures body { FreeBodyNeeded }
    ensures folder { EmptyFolderNeeded }
{}
