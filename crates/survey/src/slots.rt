// The slots of a card, as far as they are known.
ghost use Rattle.std.specs.Prelude.{◌≡◌, ℕ, ◌-◌, ◌<◌, ◌≤◌, if◌then◌else◌, false, length, Some, None, Option as Maybe, slice_index_or, slice_set};
ghost use Rattle.std.specs.Option.{option_copied, option_map};
ghost use Rattle.layout.specs.Format.{entry_of, parse as parsed};
ghost use Rattle.layout.specs.Head.{cells};
ghost use Rattle.layout.specs.Sizes.{sizes};
ghost use Rattle.rule.specs.Agree.{climbs, slot_in as slot_there, some_is};
ghost use Rattle.walk.specs.Copies.{copied};

use base::number::{BlockNo, SlotNo};
use base::owner::{Back, Handle, Kind};
use entries::entry::{Cell, cells, parse_cell};
use layout::block::{Block, FolderBody, parse};
use layout::geometry::Geometry;
use marks::mark::SlotMark;
use walk::slot::{SlotCopy, slot_in};

// What is known of a slot: its copy, and whether a sound entry leads to it.
#[derive(Clone, Copy)]
pub(crate) struct KnownSlot {
    copy: SlotCopy,
    linked: bool,
}

impl KnownSlot {
    ghost use Rattle.survey.specs.Known.{child_of, leaf_of, slot_of};

    // A slot to which no entry is known to lead.
    fn unlinked(copy: SlotCopy) -> KnownSlot
        ensures slot { slot_of result ≡ copied copy }
        ensures unlinked { result.linked ≡ false }
    {
        KnownSlot {
            copy,
            linked: false,
        }
    }

    // Whether a body of this kind in block `at`, with this back line, is a good leaf of the slot.
    #[tactic(auto, using(crate::proofs::Leaves::kind_is, layout::proofs::Numbers::length_numbers))]
    fn is_leaf(&self, kind: Kind, line: &Back, at: BlockNo) -> bool
        ensures { result ≡ leaf_of kind line.now at.0 (slot_of self.now) }
    {
        self.copy.identity == line.owner.identity
            && self.copy.number(line.leaf) == at
            && line.leaf.0 < self.copy.count
            && self.copy.kind == kind
    }

    // Whether the slot is that of the child, and in the folder.
    fn is_child(&self, folder: &Handle, child: &Handle) -> bool
        ensures { result ≡ child_of folder.now child.now (slot_of self.now) }
    {
        self.copy.is_child(folder, child)
    }
}

// The well-formed slots among the blocks that were looked at.
#[derive(Clone, Copy)]
pub(crate) struct Slots {
    known: [Option<KnownSlot>; 256],
}

impl Slots {
    ghost use Rattle.survey.specs.Known.{known_at, is_leaf, slot_of, line_by, linked_with, link, links, links_by, slot_number, up_by, slot_mark_by};

    // No slot is known.
    pub(crate) fn new() -> Slots
        ensures known { (s : ℕ) → known_at result s ≡ None }
        ensures places { length result.known ≡ 256 }
    {
        Slots { known: [None; 256] }
    }

    // Remembers the slot in block `at`, if it is well formed.
    pub(crate) fn keep(&mut self, g: &Geometry, at: BlockNo, block: &[u8; 512])
        requires { (0 < at.0) × (at.0 ≤ 256) }
        ensures { (o : Maybe KnownSlot) × (option_map slot_of o ≡ slot_there (parsed (sizes g.now) at.0 block.now)) × (some_is o (λ k. k.linked) ≡ false) × (self.new.known ≡ slice_set self.old.known (at.0 - 1) o) }
    {
        let slot = slot_in(g, at, block).map(KnownSlot::unlinked);
        self.known[at.0 as usize - 1] = slot;
    }

    fn get(&self, slot: SlotNo) -> Option<&KnownSlot>
        ensures { option_copied result ≡ known_at self.now slot.0 }
    {
        self.known.get(slot.0 as usize)?.as_ref()
    }

    // The back line of a body in block `at`, if it is a good leaf of the slot that it names.
    fn leaf_line(&self, kind: Kind, line: Back, at: BlockNo) -> Option<Back>
        ensures { result ≡ (if is_leaf self.now kind line at.0 then Some line else None) }
    {
        let slot = self.get(line.owner.slot)?;
        slot.is_leaf(kind, &line, at).then_some(line)
    }

    // Marks the child that an entry of the folder names, if the entry is sound.
    fn link(&mut self, folder: &Handle, child: &Handle)
        ensures { self.new ≡ linked_with folder.now child.now self.old }
    {
        // Kept: an index; tried with get_mut, whose contract leaves the elements unknown, and the proof did not close.
        let at = child.slot.0 as usize;
        if at < self.known.len()
            && let Some(slot) = &mut self.known[at]
            && slot.is_child(folder, child)
        {
            slot.linked = true;
        }
    }

    // The same for what is in a cell of the folder.
    fn link_cell(&mut self, g: &Geometry, folder: &Handle, cell: &[u8; 32])
        ensures { self.new ≡ link folder.now (entry_of (sizes g.now) cell.now) self.old }
    {
        if let Cell::Used(entry) = parse_cell(g, cell) {
            self.link(folder, &entry.child);
        }
    }

    // The same for all the cells of a good leaf, of the folder that its back line names.
    fn link_cells(&mut self, g: &Geometry, body: &FolderBody)
        ensures { self.new ≡ links (sizes g.now) body.now.back.owner (cells body.now.payload.now) self.old }
    {
        for cell in cells(body.payload) {
            self.link_cell(g, &body.back.owner, cell);
        }
    }

    // The back line of what stands in block `at`, if that is a good leaf; if it is one of a folder, its sound entries mark
    // the slots that they lead to.
    pub(crate) fn examine_body(
        &mut self,
        g: &Geometry,
        at: BlockNo,
        block: &[u8; 512],
    ) -> Option<Back>
        ensures line { result ≡ line_by self.old at.0 (parsed (sizes g.now) at.0 block.now) }
        ensures links { self.new ≡ links_by (sizes g.now) at.0 (parsed (sizes g.now) at.0 block.now) self.old }
    {
        match parse(g, at, block) {
            Block::FileBody(body) => self.leaf_line(Kind::File, body.back, at),
            Block::FolderBody(body) => {
                let line = self.leaf_line(Kind::Folder, body.back, at)?;
                self.link_cells(g, &body);
                Some(line)
            }
            _ => None,
        }
    }

    // The slot of the folder that a slot is in, if a sound entry leads to it.
    fn up(&self, slot: SlotNo) -> Option<SlotNo>
        ensures { option_map slot_number result ≡ up_by self.now slot.0 }
    {
        let below = self.get(slot)?;
        below.linked.then_some(below.copy.parent.slot)
    }

    // Whether one comes from a slot up to slot 0, in at most `most` steps.
    #[tactic(auto, using(crate::proofs::Fills::climbs_next, crate::proofs::Fills::climbs_last))]
    fn climbs(&self, most: u16, from: SlotNo) -> bool
        ensures { result ≡ climbs (up_by self.now) most from.0 }
    {
        let mut at = from;
        for _i in 0..most {
            if at == SlotNo(0) {
                return true;
            }
            let Some(above) = self.up(at) else {
                return false;
            };
            at = above;
        }
        at == SlotNo(0)
    }

    fn mark(&self, most: u16, slot: SlotNo) -> Option<SlotMark>
        ensures { result ≡ slot_mark_by most self.now slot.0 }
    {
        let copy = &self.get(slot)?.copy;
        self.climbs(most, slot).then_some(SlotMark {
            identity: copy.identity,
            parent: copy.parent,
        })
    }

    // The marks of the slots of a card that has `most` of them.
    pub(crate) fn marks(&self, most: u16) -> [Option<SlotMark>; 256]
        ensures { (s : ℕ) → slice_index_or result s None ≡ slot_mark_by most self.now s }
    {
        let mut marks = [None; 256];
        for (s, mark) in marks.iter_mut().enumerate() {
            *mark = self.mark(most, SlotNo(s as u16));
        }
        marks
    }
}
