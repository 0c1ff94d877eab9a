// The work list of the marks.
ghost use Rattle.std.specs.Prelude.{◌≡◌, ◌<◌, ◌≤◌, false, length, replicate};
ghost use Rattle.tours.specs.Ticks.{ticks, Listed};

use base::number::SlotNo;

// Which slots are marked, and a queue of them: those before `head` were handed out, the others wait.
#[derive(Drop)]
pub(crate) struct Work {
    pub(crate) marks: [bool; 256],
    // Kept: an array with its tail: `ArrayVec::new` asks for a Default, which a slot's number has not, as 0 is the root; and each push would owe that there is room, as `tail` does now.
    queue: [SlotNo; 256],
    head: usize,
    tail: usize,
    ghost slots: { length marks ≡ 256 },
    ghost room: { length queue ≡ 256 },
    ghost counted: { tail ≡ ticks marks },
    ghost ahead: { head ≤ tail },
    ghost listed: { Listed marks queue tail },
}

impl Work {
    ghost use Rattle.tours.specs.Marks.{Entered, Handed};

    // No slot is marked.
    pub(crate) fn new() -> Work
        ensures marks { result.marks ≡ replicate 256 false }
        ensures empty { (result.head ≡ 0) × (result.tail ≡ 0) }
    {
        Work {
            marks: [false; 256],
            queue: [SlotNo(0); 256],
            head: 0,
            tail: 0,
        }
    }

    // Marks a slot, and puts it to the work unless it was marked.
    pub(crate) fn enter(&mut self, at: SlotNo)
        requires { at.0 < 256 }
        ensures { Entered at self.old self.new }
    {
        if self.marks[at.0 as usize] {
            return;
        }
        self.marks[at.0 as usize] = true;
        self.queue[self.tail] = at;
        self.tail += 1;
    }

    // The slot that has waited longest.
    pub(crate) fn next(&mut self) -> Option<SlotNo>
        ensures { Handed result self.old self.new }
    {
        if self.head == self.tail {
            return None;
        }
        let slot = self.queue[self.head];
        self.head += 1;
        Some(slot)
    }
}
