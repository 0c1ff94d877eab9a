// The parts of a small choir, with made-up words.
use base::owner::Handle;
use std::alloc::{AllocError, Global};

#[derive(Clone, Copy, PartialEq, Eq)]
pub enum Voice {
    Soprano,
    Alto,
    Tenor,
    Bass,
}

impl Voice {
    pub fn name(&self) -> &'static str {
        match self {
            Voice::Soprano => "Soprano",
            Voice::Alto => "Alto",
            Voice::Tenor => "Tenor",
            Voice::Bass => "Bass",
        }
    }
}

#[derive(Clone, Copy)]
pub enum Edition {
    Old,
    New,
}

impl Edition {
    pub fn name(&self) -> &'static str {
        match self {
            Edition::Old => "old",
            Edition::New => "new",
        }
    }
}

// A piece, the card it goes onto, and how many leaves each part has.
#[derive(Clone, Copy)]
pub struct Piece {
    pub title: &'static str,
    pub blocks: u16,
    pub slots: u16,
    pub leaves: [(Voice, u16); 4],
}

pub const KYRIE: Piece = Piece {
    title: "Kyrie",
    blocks: 64,
    slots: 12,
    leaves: [
        (Voice::Soprano, 5),
        (Voice::Alto, 4),
        (Voice::Tenor, 3),
        (Voice::Bass, 6),
    ],
};

pub const GLORIA: Piece = Piece {
    title: "Gloria",
    blocks: 80,
    slots: 12,
    leaves: [
        (Voice::Soprano, 6),
        (Voice::Alto, 20),
        (Voice::Tenor, 5),
        (Voice::Bass, 4),
    ],
};

// A part: its path on the card, its file, and the leaves of its two editions. A part of one edition has none in `new`.
#[derive(Drop)]
pub struct Part {
    pub voice: Voice,
    pub path: String,
    pub file: Handle,
    pub old: Vec<Vec<u8>>,
    pub new: Vec<Vec<u8>>,
}

impl Part {
    // How many leaves the longer of its editions has.
    pub fn most(&self) -> usize {
        self.old.len().max(self.new.len())
    }
}

#[derive(Drop)]
pub struct Choir {
    pub piece: Piece,
    pub folder: Handle,
    pub parts: Vec<Part>,
}

const SUNG: &[u8] = b"ah, e-le-i-son, do-na no-bis pa-cem, lau-da-mus te; ";

// Every other leaf is as long as a leaf can be.
fn length(leaf: u16) -> usize {
    if leaf % 2 == 0 {
        496
    } else {
        200 + 8 * (leaf as usize % 32)
    }
}

// The words of one leaf. Its first words tell it from every other leaf.
fn words(
    heap: Global,
    title: &str,
    voice: Voice,
    edition: Edition,
    leaf: u16,
) -> Result<Vec<u8>, AllocError> {
    let who = voice.name();
    let which = edition.name();
    let head = format!(in heap; "{title}, {who}, {which} edition, leaf {leaf}: ")?;
    let mut bytes = head.into_bytes();
    for i in bytes.len()..length(leaf) {
        bytes.push(SUNG[i % SUNG.len()])?;
    }
    Ok(bytes)
}

fn leaves(
    heap: Global,
    title: &str,
    voice: Voice,
    edition: Edition,
    count: u16,
) -> Result<Vec<Vec<u8>>, AllocError> {
    let mut all = Vec::new(heap);
    for leaf in 0..count {
        all.push(words(heap, title, voice, edition, leaf)?)?;
    }
    Ok(all)
}

// A part in its file. The alto part has a second edition, of one leaf more.
pub fn make_part(
    heap: Global,
    title: &str,
    voice: Voice,
    count: u16,
    file: Handle,
) -> Result<Part, AllocError> {
    let who = voice.name();
    let anew = if voice == Voice::Alto {
        count.saturating_add(1)
    } else {
        0
    };
    Ok(Part {
        voice,
        path: format!(in heap; "{title}/{who}")?,
        file,
        old: leaves(heap, title, voice, Edition::Old, count)?,
        new: leaves(heap, title, voice, Edition::New, anew)?,
    })
}
