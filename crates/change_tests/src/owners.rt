// Who owns each block of a card of 12 blocks and 4 slots, told from the bytes by the rules as they are written: none of
// the library's code is used.

pub const BLOCKS: u16 = 12;

pub const SLOTS: u16 = 4;

pub type Image = [[u8; 512]; 12];

// For each block the reached slot whose block it is, or whose good leaf.
pub type Owners = [Option<u16>; 12];

fn byte(image: &Image, block: u16, at: usize) -> u8 {
    match image.get(block as usize) {
        Some(bytes) => bytes.get(at).copied().unwrap_or(0),
        None => 0,
    }
}

fn half(image: &Image, block: u16, at: usize) -> u16 {
    let high = byte(image, block, at.saturating_add(1));
    u16::from_le_bytes([byte(image, block, at), high])
}

fn word(image: &Image, block: u16, at: usize) -> u32 {
    let high = half(image, block, at.saturating_add(2)) as u32;
    65536 * high + half(image, block, at) as u32
}

fn count(image: &Image, s: u16) -> u16 {
    half(image, s.saturating_add(1), 2)
}

fn identity(image: &Image, s: u16) -> u32 {
    word(image, s.saturating_add(1), 4)
}

fn number(image: &Image, s: u16, k: u16) -> u16 {
    half(image, s.saturating_add(1), 16 + 2 * (k as usize))
}

fn is_folder(image: &Image, s: u16) -> bool {
    byte(image, s.saturating_add(1), 0) == 3
}

fn is_body(block: u16) -> bool {
    SLOTS < block && block < BLOCKS
}

// Whether a slot is well formed.
fn is_slot(image: &Image, s: u16) -> bool {
    let block = s.saturating_add(1);
    let kind = byte(image, block, 0);
    s < SLOTS
        && (kind == 2 || kind == 3)
        && count(image, s) <= 64
        && identity(image, s) > 0
        && word(image, block, 8) > 0
        && half(image, block, 12) < SLOTS
        && (0..count(image, s)).all(|k| is_body(number(image, s, k)))
}

// Whether leaf k of a slot is good.
fn is_good(image: &Image, s: u16, k: u16) -> bool {
    let body = number(image, s, k);
    let used = half(image, body, 10);
    let (kind, fits) = if is_folder(image, s) {
        (5, used == 480)
    } else {
        (4, used <= 496)
    };
    is_slot(image, s)
        && k < count(image, s)
        && byte(image, body, 0) == kind
        && fits
        && half(image, body, 2) == s
        && word(image, body, 4) == identity(image, s)
        && half(image, body, 8) == k
}

// Whether a byte may stand in a name.
fn is_letter(byte: u8) -> bool {
    byte != 0 && byte != 47
}

// The child of the entry at a byte of a body, if the entry is sound in a folder.
fn sound_child(image: &Image, s: u16, body: u16, at: usize) -> Option<u16> {
    let length = byte(image, body, at);
    let child = half(image, body, at.saturating_add(2));
    let block = child.saturating_add(1);
    let name = at.saturating_add(8);
    let named = (0..length as usize).all(|i| is_letter(byte(image, body, name.saturating_add(i))));
    let sound = length > 0
        && length <= 24
        && named
        && child > 0
        && is_slot(image, child)
        && word(image, body, at.saturating_add(4)) == identity(image, child)
        && half(image, block, 12) == s
        && word(image, block, 8) == identity(image, s);
    sound.then_some(child)
}

// Adds the children of reached folders that a sound entry names.
fn add_reached(image: &Image, reached: &mut [bool; 4]) {
    let before = *reached;
    for (s, known) in (0..SLOTS).zip(before) {
        if !known || !is_folder(image, s) {
            continue;
        }
        for k in 0..count(image, s).min(64) {
            if is_good(image, s, k) {
                add_children(image, s, number(image, s, k), reached);
            }
        }
    }
}

fn add_children(image: &Image, s: u16, body: u16, reached: &mut [bool; 4]) {
    for place in 0..15 {
        let Some(child) = sound_child(image, s, body, 16 + 32 * place) else {
            continue;
        };
        if let Some(one) = reached.get_mut(child as usize) {
            *one = true;
        }
    }
}

fn reached(image: &Image) -> [bool; 4] {
    let mut all = [true, false, false, false];
    for _ in 0..SLOTS {
        add_reached(image, &mut all);
    }
    all
}

// The root's card is good.
pub fn owners(image: &Image) -> Owners {
    let mut all = [None; 12];
    for (s, known) in (0..SLOTS).zip(reached(image)) {
        if !known {
            continue;
        }
        own(&mut all, s.saturating_add(1), s);
        for k in 0..count(image, s).min(64) {
            if is_good(image, s, k) {
                own(&mut all, number(image, s, k), s);
            }
        }
    }
    all
}

fn own(all: &mut Owners, block: u16, s: u16) {
    if let Some(owner) = all.get_mut(block as usize) {
        *owner = Some(s);
    }
}

// Whether a block is the slot of a child of this folder.
pub fn is_child(image: &Image, block: u16, folder: u16) -> bool {
    0 < block
        && block <= SLOTS
        && half(image, block, 12) == folder
        && word(image, block, 8) == identity(image, folder)
}
