// What a stand sees of the parts, counted.
ghost use Rattle.std.specs.Prelude.{◌≡◌, ◌↔◌, Some, IsTrue};
ghost use Rattle.choir.specs.Classes.{leaf_of, Class, ReadShows, refused_class, Shows, more, noted};

use crate::calls::looks;
use crate::parts::{Choir, Part};
use base::refusal::Refusal;
use std::alloc::{AllocError, Global};
use trial::answer::Answer;

// What one leaf shows.
#[derive(Clone, Copy)]
pub enum Shown {
    Old,
    New,
    Refused,
    // The file has no such leaf, by its status and by its read.
    Absent,
    // None of these.
    Other,
}

// How many leaves show what.
#[derive(Clone, Copy, Default)]
pub struct Tally {
    pub old: u32,
    pub new: u32,
    pub refused: u32,
    pub absent: u32,
    pub other: u32,
}

// One more, as far as 32 bits go.
fn more(n: u32) -> u32
    ensures { result ≡ more n }
{
    n.saturating_add(1)
}

impl Tally {
    // Counts a leaf in its class.
    pub fn note(&mut self, shown: Shown)
        ensures { self.exit.now ≡ noted shown self.entry.now }
    {
        match shown {
            Shown::Old => self.old = more(self.old),
            Shown::New => self.new = more(self.new),
            Shown::Refused => self.refused = more(self.refused),
            Shown::Absent => self.absent = more(self.absent),
            Shown::Other => self.other = more(self.other),
        }
    }

    pub fn add(&mut self, more: &Tally) {
        self.old = self.old.saturating_add(more.old);
        self.new = self.new.saturating_add(more.new);
        self.refused = self.refused.saturating_add(more.refused);
        self.absent = self.absent.saturating_add(more.absent);
        self.other = self.other.saturating_add(more.other);
    }

    // How many leaves were opened: all but those that the file does not have.
    pub fn opened(&self) -> u32 {
        self.old
            .saturating_add(self.new)
            .saturating_add(self.refused)
            .saturating_add(self.other)
    }

    pub fn is_mixed(&self) -> bool {
        self.old > 0 && self.new > 0
    }
}

// Whether both are the same bytes.
fn same(a: &[u8], b: &[u8]) -> bool
    ensures { IsTrue result ↔ (a.now ≡ b.now) }
{
    a == b
}

// Whether an edition has a leaf k of these bytes.
fn is_leaf(leaves: &[Vec<u8>], k: usize, bytes: &[u8]) -> bool
    ensures { IsTrue result ↔ (leaf_of leaves.now k ≡ Some bytes.now) }
{
    k < leaves.len() && same(&leaves[k], bytes)
}

// The class of bytes that were read of leaf k.
fn class(part: &Part, k: usize, bytes: &[u8]) -> Shown
    ensures { Class part.now k bytes.now result }
{
    if is_leaf(&part.old, k, bytes) {
        Shown::Old
    } else if is_leaf(&part.new, k, bytes) {
        Shown::New
    } else {
        Shown::Other
    }
}

// What the first bytes of a buffer show of leaf k, of a file that has `count` leaves by its status.
fn read_shows(part: &Part, k: usize, count: usize, used: usize, buffer: &[u8]) -> Shown
    ensures { ReadShows part.now k count used buffer.now result }
{
    if k >= count || used > buffer.len() {
        return Shown::Other;
    }
    class(part, k, &buffer[..used])
}

// The class of a refused read, of a leaf that the file has or has not.
fn refused(is_there: bool, refusal: &Refusal) -> Shown
    ensures { result ≡ refused_class is_there refusal.now }
{
    if is_there {
        return Shown::Refused;
    }
    match refusal {
        Refusal::NoSuchLeaf(_) => Shown::Absent,
        _ => Shown::Other,
    }
}

// What leaf k of a part shows by the answer to a read of it.
fn leaf_shows(part: &Part, k: usize, count: usize, answer: &Answer) -> Shown
    ensures { Shows part.now k count answer.now result }
{
    match answer {
        Answer::Leaf(Ok(used), buffer) => read_shows(part, k, count, *used, buffer),
        Answer::Leaf(Err(refusal), _) => refused(k < count, refusal),
        _ => Shown::Other,
    }
}

// Whether an edition of the part has so many leaves.
fn is_length(part: &Part, count: usize) -> bool {
    count == part.old.len() || (!part.new.is_empty() && count == part.new.len())
}

// How many leaves the status tells. None: the path did not lead to the part's file, or no edition has so many.
fn count_of(part: &Part, path: &Answer, status: &Answer) -> Option<usize> {
    match (path, status) {
        (Answer::Path(Ok(handle)), Answer::Status(Ok(status))) if *handle == part.file => {
            Some(status.count as usize).filter(|count| is_length(part, *count))
        }
        _ => None,
    }
}

// Counts what a part shows, by the answers to the calls that looked at it. What was not answered as a look is, is counted
// as other.
fn tally_of(part: &Part, answers: &[Answer]) -> Tally {
    let mut tally = Tally::default();
    let [path, status, leaves @ ..] = answers else {
        tally.note(Shown::Other);
        return tally;
    };
    let Some(count) = count_of(part, path, status) else {
        tally.note(Shown::Other);
        return tally;
    };
    for (k, answer) in leaves.iter().enumerate() {
        tally.note(leaf_shows(part, k, count, answer));
    }
    tally
}

// Counts what each part shows, by the last answers of a life: those of `look`.
pub fn see(heap: Global, choir: &Choir, answers: &[Answer]) -> Result<Vec<Tally>, AllocError> {
    let mut seen = Vec::new(heap);
    let mut left = answers;
    for part in choir.parts.iter().rev() {
        let start = left.len().saturating_sub(looks(part));
        let (front, own) = left.split_at(start);
        seen.push(tally_of(part, own))?;
        left = front;
    }
    seen.reverse();
    Ok(seen)
}

// Whether some changing call found the power gone.
pub fn met_power_gone(answers: &[Answer]) -> bool {
    answers.iter().any(|answer| matches!(answer, Answer::Changed(Err(Refusal::PowerGone(_)))))
}
