// The tree of a card: its folders and files, their leaves, and what is damaged.
use crate::text::Name;
use base::number::{LeafNo, SlotNo};
use base::owner::{Handle, Kind};
use card::inner::Status;
use card::opened::{Opened, open};
use card::readable::Readable;
use device::plain::Plain;
use listing::line::{DamageLine, EntryLine, NO_DAMAGE, NO_ENTRY};
use std::alloc::Global;
use std::collections::BTreeSet;
use std::io;
use walk::path::ROOT;

// A folder has at most 64 leaves of 15 entries; a card has at most 256 slots of 64 leaves.
const ENTRIES: usize = 960;

const LEAVES: usize = 16384;

// The entries of each slot are printed once, and the root.
const LINES: usize = 245761;

// A line of the tree that is still to be printed.
#[derive(Clone, Copy)]
struct Todo {
    depth: u16,
    entry: EntryLine,
}

// What is kept while the tree of a card is printed: the leaves that are not good, the folders that were met, and the
// lines that are still to be printed, the next one last.
#[derive(Drop)]
struct Tree<'a, 'i, R> {
    rt: &'a R,
    heap: Global,
    card: Opened<Plain<'i>>,
    damage: Vec<DamageLine>,
    met: BTreeSet<SlotNo>,
    todo: Vec<Todo>,
}

impl<R: Print> Tree<'_, '_, R> {
    fn indent(&self, depth: u16) -> io::Result<()> {
        for _ in 0..depth {
            print!(self.rt; "  ")?;
        }
        Ok(())
    }

    // A leaf of a file: its length, or why it cannot be read.
    fn print_leaf(&mut self, file: &Handle, leaf: LeafNo) -> io::Result<()> {
        let mut buffer = [0u8; 496];
        match self.card.read(file, leaf, &mut buffer) {
            Ok(length) => println!(self.rt; "leaf {leaf}: good, {length} bytes"),
            Err(refusal) => println!(self.rt; "leaf {leaf}: not good: {refusal}"),
        }
    }

    fn print_leaves(&mut self, file: &Handle, count: u16, depth: u16) -> io::Result<()> {
        for k in 0..count {
            self.indent(depth)?;
            self.print_leaf(file, LeafNo(k))?;
        }
        Ok(())
    }

    // The leaves of a folder: of one that is not good the entries are not seen. One look at each line of the damage.
    fn print_folder_leaves(&self, folder: &Handle, count: u16, depth: u16) -> io::Result<()> {
        let mut states = ["good"; 64];
        for line in &self.damage {
            if line.slot == folder.slot
                && let Some(state) = states.get_mut(line.leaf.0 as usize)
            {
                *state = "not good";
            }
        }
        for (leaf, state) in (0..count).zip(states.iter()) {
            self.indent(depth)?;
            println!(self.rt; "leaf {leaf}: {state}")?;
        }
        Ok(())
    }

    // Puts the entries of a folder on the list, the last first.
    fn push_entries(&mut self, folder: &Handle, depth: u16) -> anyhow::Result<()> {
        let mut lines = vec![in self.heap; NO_ENTRY; ENTRIES]?;
        let count = self.card.list(folder, &mut lines)?;
        lines.truncate(count);
        for entry in lines.iter().rev() {
            self.todo.push(Todo {
                depth,
                entry: *entry,
            })?;
        }
        Ok(())
    }

    fn print_node(&self, handle: &Handle, status: &Status, line: &Todo) -> io::Result<()> {
        let name = Name(line.entry.name());
        let kind = status.kind;
        let slot = handle.slot;
        let identity = handle.identity;
        let count = status.count;
        self.indent(line.depth)?;
        println!(self.rt; "{name} ({kind}, slot {slot}, identity {identity}, leaves {count})")
    }

    // Prints a file or folder with its leaves. A folder's entries go on the list when it is first met: two entries for
    // one folder do not print all below it twice.
    fn print_next(&mut self, line: &Todo) -> anyhow::Result<()> {
        let handle = Handle {
            slot: line.entry.slot,
            identity: line.entry.identity,
        };
        let below = line.depth.saturating_add(1);
        let status = self.card.status(&handle)?;
        self.print_node(&handle, &status, line)?;
        if status.kind == Kind::File {
            return Ok(self.print_leaves(&handle, status.count, below)?);
        }
        if !self.met.insert(handle.slot)? {
            self.indent(below)?;
            return Ok(println!(self.rt; "(as above)")?);
        }
        self.print_folder_leaves(&handle, status.count, below)?;
        self.push_entries(&handle, below)
    }

    fn print_damage(&self) -> io::Result<()> {
        let count = self.damage.len();
        println!(self.rt; "damaged leaves: {count}")?;
        for line in &self.damage {
            let slot = line.slot;
            let leaf = line.leaf;
            println!(self.rt; "  slot {slot}, leaf {leaf}")?;
        }
        Ok(())
    }
}

fn root_line() -> EntryLine {
    let mut name = [0u8; 24];
    name[0] = b'/';
    EntryLine {
        name,
        length: 1,
        slot: ROOT.slot,
        identity: ROOT.identity,
    }
}

// Prints the card in an image; a bad card is an error.
pub fn print(rt: &impl Print, heap: Global, image: &mut [u8]) -> anyhow::Result<()> {
    let root = Todo {
        depth: 0,
        entry: root_line(),
    };
    let mut tree = Tree {
        rt,
        heap,
        card: open(Plain::new(image)),
        damage: Vec::new(heap),
        met: BTreeSet::new(heap),
        todo: vec![in heap; root]?,
    };
    let mut damage = vec![in heap; NO_DAMAGE; LEAVES]?;
    let count = tree.card.damage(&mut damage)?;
    damage.truncate(count);
    tree.damage = damage;
    for _ in 0..LINES {
        let Some(line) = tree.todo.pop() else {
            break;
        };
        tree.print_next(&line)?;
    }
    Ok(tree.print_damage()?)
}
