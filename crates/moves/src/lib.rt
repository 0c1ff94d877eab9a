// How the marks of a surveyed card move under its changing calls: definitions in specs/, theorems on the functions below.
// A function here computes nothing: what its contract says is proved whenever the crate is.
#![tactic(auto)]

ghost use Rattle.moves.specs.Tied.{TiedStarts, CreateStaysTied, WriteStaysTied, ShortenStaysTied, RemoveStaysTied, FormatTies};
ghost use Rattle.moves.specs.Written.{WrittenReadsBack};
ghost use Rattle.moves.specs.Moves.{MarksServe, CreateMoves, WriteMoves, ShortenMoves, RemoveMoves, FormatMoves};
ghost use Rattle.moves.specs.Marking.{CreateMarks, WriteMarks, ShortenMarks, RemoveMarks, RoomStaysAlways};

// What a card and its blocks have in common holds from the end of the survey on, after each accepted call.
pub fn ties_stay()
    ensures survey { TiedStarts }
    ensures format { FormatTies }
    ensures create { CreateStaysTied }
    ensures write { WriteStaysTied }
    ensures shorten { ShortenStaysTied }
    ensures remove { RemoveStaysTied }
{}

// Which slots are reached and which bodies are held after each accepted call, by what they were before.
pub fn marks_move()
    ensures format { FormatMoves }
    ensures create { CreateMoves }
    ensures write { WriteMoves }
    ensures shorten { ShortenMoves }
    ensures remove { RemoveMoves }
{}

// Marks that agree with the blocks shown choose what is free, and count it.
pub fn marks_serve()
    ensures { MarksServe }
{}

// Marks in memory that agree with the blocks shown before an accepted call agree with them after it, once they are set and
// taken back as said; and there is still a mark for each slot and each block.
pub fn marks_follow()
    ensures create { CreateMarks }
    ensures write { WriteMarks }
    ensures shorten { ShortenMarks }
    ensures remove { RemoveMarks }
    ensures room { RoomStaysAlways }
{}

// A leaf that was written reads back, byte for byte.
pub fn writes_read_back()
    ensures { WrittenReadsBack }
{}
