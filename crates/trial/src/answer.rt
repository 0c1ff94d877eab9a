// What was answered.
use base::owner::Handle;
use base::refusal::{PathRefusal, Refusal};
use card::inner::Status;
use card::opened::Surveying;
use card::surveyed::Space;
use listing::line::{DamageLine, EntryLine};

#[derive(Drop)]
pub enum Answer {
    // The call does not fit the moment, and was not made.
    NotNow,
    // An open, an end of the survey, a cut, or trouble told: none of them refuses.
    Done,
    Surveying(Result<Surveying, Refusal>),
    // Of find and create.
    Handle(Result<Handle, Refusal>),
    Path(Result<Handle, PathRefusal>),
    Status(Result<Status, Refusal>),
    // How many there are, and the caller's lines after.
    Entries(Result<usize, Refusal>, Vec<EntryLine>),
    Damage(Result<usize, Refusal>, Vec<DamageLine>),
    // How many bytes the leaf has, and the caller's buffer after.
    Leaf(Result<usize, Refusal>, Vec<u8>),
    Space(Result<Space, Refusal>),
    // Of write, shorten, remove and sync.
    Changed(Result<(), Refusal>),
}
