// Images that no card of ours would have: whatever is asked of them, no block of another file is changed.
use crate::owners::{BLOCKS, Image, Owners, SLOTS, is_child, owners};
use crate::table::{Ask, Reply, after_cut, answer, on_device};
use base::number::BlockNo;
use base::owner::{Handle, Kind};
use card::opened::open;
use card::surveyed::Surveyed;
use card_tests::image::{SIZE, example, handle, put_entry, put_file, put_folder, put_slot};
use power::ledger::Ledger;
use std::alloc::Global;
use std::test::Fail;

// A row of numbers that look random.
#[derive(Drop)]
struct Dice {
    state: u32,
}

impl Dice {
    // The next number, below a limit.
    fn below(&mut self, limit: u16) -> u16 {
        let a = self.state ^ (self.state << 13);
        let b = a ^ (a >> 17);
        self.state = b ^ (b << 5);
        (self.state % 65536) as u16 % limit.max(1)
    }

    // A handle: mostly of a slot whose identity is one more than its number.
    fn handle(&mut self) -> Handle {
        let slot = self.below(SLOTS);
        match self.below(16) {
            0 => handle(SLOTS, 9),
            1 => handle(slot, 9),
            _ => handle(slot, slot as u32 + 1),
        }
    }

    // The root, or any other.
    fn parent(&mut self) -> Handle {
        if self.below(4) == 0 {
            return self.handle();
        }
        handle(0, 1)
    }

    fn kind(&mut self) -> Kind {
        if self.below(2) == 0 {
            Kind::File
        } else {
            Kind::Folder
        }
    }

    fn name(&mut self) -> &'static [u8] {
        match self.below(12) {
            0 => b"",
            1..=4 => b"alto",
            5..=7 => b"bass",
            8..=10 => b"mass",
            _ => b"tenor",
        }
    }

    fn leaf(&mut self) -> u16 {
        match self.below(8) {
            0 => 64,
            1 => 65535,
            _ => self.below(3),
        }
    }

    fn ask(&mut self) -> Ask<'static> {
        match self.below(5) {
            0 => Ask::Create(self.kind(), self.handle(), self.name()),
            1 => Ask::Remove(self.handle(), self.name()),
            2 => Ask::Shorten(self.handle(), self.leaf()),
            _ => Ask::Write(self.handle(), self.leaf(), self.name()),
        }
    }
}

fn subject(ask: &Ask) -> u16 {
    match ask {
        Ask::Create(_, h, _) | Ask::Write(h, _, _) | Ask::Shorten(h, _) | Ask::Remove(h, _) => h
            .slot
            .0,
        _ => 0,
    }
}

fn shown(device: &Ledger) -> Image {
    let mut all = [[0; 512]; 12];
    for (at, block) in (0..BLOCKS).zip(all.iter_mut()) {
        *block = device.shown(BlockNo(at)).unwrap_or([0; 512]);
    }
    all
}

// Whether a call on this slot may change a block: one that is free, one of its own, or the slot of a child that it removes.
fn may_change(ask: &Ask, old: &Image, known: &Owners, at: u16) -> bool {
    let slot = subject(ask);
    match known.get(at as usize) {
        Some(None) => at > 0,
        Some(Some(owner)) if *owner == slot => true,
        _ => matches!(ask, Ask::Remove(_, _)) && is_child(old, at, slot),
    }
}

// Asks, and looks at what has changed. The card has to agree with the bytes about what is free.
fn ask_one(card: &mut Surveyed<Ledger>, ask: &Ask) -> Result<Reply, Fail> {
    let old = shown(card.device());
    let known = owners(&old);
    let reply = answer(card, ask);
    let new = shown(card.device());
    let refused = matches!(reply, Reply::Refused(_, _, _));
    let mut changed = 0;
    for (at, (a, b)) in (0..BLOCKS).zip(old.iter().zip(&new)) {
        if a == b {
            continue;
        }
        changed = 1u16.saturating_add(changed);
        if refused {
            return Err(Fail::new("a refusal changed a block"));
        }
        if !may_change(ask, &old, &known, at) {
            return Err(Fail::new("a block of another was changed"));
        }
    }
    if changed > 3 {
        return Err(Fail::new("more than three blocks were changed"));
    }
    agrees(card, &owners(&new))?;
    Ok(reply)
}

// How many blocks nobody owns, from one on and before another.
fn free(known: &Owners, from: u16, to: u16) -> u16 {
    let mut many = 0u16;
    for at in from..to {
        if matches!(known.get(at as usize), Some(None)) {
            many = many.saturating_add(1);
        }
    }
    many
}

// Whether the card's free bodies and slots are those of the bytes.
fn agrees(card: &Surveyed<Ledger>, known: &Owners) -> Result<(), Fail> {
    let space = card.space()?;
    if space.slots != free(known, 1, SLOTS + 1) || space.bodies != free(known, SLOTS + 1, BLOCKS) {
        return Err(Fail::new("what is free is not what the bytes say"));
    }
    Ok(())
}

// Opens an image, makes so many changes, cuts the power anywhere, and goes on. Answers how many were accepted.
fn ask_all(heap: Global, image: &[u8; SIZE], dice: &mut Dice, many: u16) -> Result<u32, Fail> {
    let mut card = open(on_device(heap, image)?).end();
    agrees(&card, &owners(&shown(card.device())))?;
    let mut accepted = 0u32;
    for at in 0..many {
        if !matches!(ask_one(&mut card, &dice.ask())?, Reply::Refused(_, _, _)) {
            accepted = accepted.saturating_add(1);
        }
        if at % 16 == 15 {
            let landing = [
                dice.below(60),
                dice.below(60),
                dice.below(60),
                dice.below(60),
                dice.below(60),
            ];
            card = after_cut(card, &landing);
            agrees(&card, &owners(&shown(card.device())))?;
        }
    }
    Ok(accepted)
}

// Fills an image with random bytes from a place on.
fn scramble(image: &mut [u8; SIZE], from: usize, dice: &mut Dice) {
    for byte in image.iter_mut().skip(from) {
        *byte = (dice.below(256) % 256) as u8;
    }
}

#[test]
fn random_blocks(rt: HostRuntime) -> Result<(), Fail> {
    let mut dice = Dice { state: 2463534242 };
    for _ in 0..40 {
        let mut image = example();
        scramble(&mut image, 0, &mut dice);
        let mut card = open(on_device(rt.alloc(), &image)?).end();
        assert!(rt;
            matches!(
                answer(&mut card, &dice.ask()),
                Reply::Refused(3 | 11 | 12, _, _)
            )
        );
        let mut image = example();
        scramble(&mut image, 1024, &mut dice);
        let _ = ask_all(rt.alloc(), &image, &mut dice, 16)?;
    }
    Ok(())
}

fn put_random_slot(image: &mut [u8; SIZE], s: u16, dice: &mut Dice) {
    let mut numbers = [BlockNo(0); 4];
    for number in numbers.iter_mut() {
        *number = BlockNo(dice.below(7).saturating_add(5));
    }
    let (kept, _) = numbers.split_at(dice.below(5).min(4) as usize);
    let identity = if dice.below(8) == 0 { 9 } else { s as u32 + 1 };
    put_slot(image, s, dice.kind(), identity, &dice.parent(), kept);
}

fn put_random_body(image: &mut [u8; SIZE], b: u16, dice: &mut Dice) {
    if dice.below(2) == 0 {
        put_file(image, b, dice.handle(), dice.below(3), dice.name());
        return;
    }
    put_folder(image, b, dice.handle(), dice.name(), &dice.handle());
    put_entry(image, b, 3, dice.name(), &dice.handle());
    put_entry(image, b, 14, b"loft", &dice.handle());
}

#[test]
fn slots_and_bodies_at_random(rt: HostRuntime) -> Result<(), Fail> {
    let mut dice = Dice { state: 88172645 };
    let root = handle(0, 1);
    let mut accepted = 0;
    for _ in 0..40 {
        let mut image = example();
        for s in 1..SLOTS {
            put_random_slot(&mut image, s, &mut dice);
        }
        for b in SLOTS + 1..BLOCKS {
            put_random_body(&mut image, b, &mut dice);
        }
        put_folder(&mut image, 5, root, b"alto", &dice.handle());
        put_entry(&mut image, 5, 1, b"bass", &handle(1, 2));
        put_entry(&mut image, 5, 2, b"mass", &handle(2, 3));
        put_entry(&mut image, 5, 14, b"loft", &handle(3, 4));
        accepted = ask_all(rt.alloc(), &image, &mut dice, 48)?.saturating_add(accepted);
    }
    assert!(rt; accepted > 150, "{accepted}");
    Ok(())
}

// The example, with one thing of each sort that no card of ours would have.
fn crafted(which: u16) -> [u8; SIZE] {
    let mut image = example();
    let root = handle(0, 1);
    let (alto, mass, loft) = (handle(1, 2), handle(2, 3), handle(3, 4));
    let numbers = [BlockNo(6), BlockNo(7), BlockNo(6)];
    match which {
        // Two entries for one child.
        0 => put_entry(&mut image, 5, 7, b"tenor", &alto),
        // A body's number twice in a slot.
        1 => put_slot(&mut image, 1, Kind::File, 2, &root, &numbers),
        // A slot that is its own parent, and an entry for it in itself.
        2 => {
            put_slot(&mut image, 2, Kind::Folder, 3, &mass, &[BlockNo(8)]);
            put_folder(&mut image, 8, mass, b"mass", &mass);
        }
        // An entry for the root.
        3 => put_entry(&mut image, 5, 2, b"tenor", &root),
        // Two folders, each in the other.
        4 => {
            put_slot(&mut image, 2, Kind::Folder, 3, &loft, &[BlockNo(8)]);
            put_slot(&mut image, 3, Kind::Folder, 4, &mass, &[BlockNo(9)]);
            put_folder(&mut image, 8, mass, b"bass", &loft);
            put_folder(&mut image, 9, loft, b"mass", &mass);
        }
        // A body of alto's that bass names too.
        5 => put_slot(
            &mut image,
            3,
            Kind::File,
            4,
            &mass,
            &[BlockNo(6), BlockNo(7)],
        ),
        // The root names a body of alto's, before its own.
        6 => put_slot(
            &mut image,
            0,
            Kind::Folder,
            1,
            &root,
            &[BlockNo(6), BlockNo(5)],
        ),
        // Two slots of one identity.
        _ => put_slot(&mut image, 3, Kind::File, 2, &root, &[BlockNo(9)]),
    }
    image
}

#[test]
fn crafted_images(rt: HostRuntime) -> Result<(), Fail> {
    let mut dice = Dice { state: 521288629 };
    for which in 0..8 {
        let image = crafted(which);
        let mut accepted = 0;
        for _ in 0..8 {
            accepted = ask_all(rt.alloc(), &image, &mut dice, 48)?.saturating_add(accepted);
        }
        assert!(rt; accepted > 10, "image {which}: {accepted}");
    }
    Ok(())
}
