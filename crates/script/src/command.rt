// The commands of a script. A command borrows its names, paths and contents from its line, as hex digits.
use crate::word::{all_nibbles, nibble, number, part_end};
use base::number::{Identity, LeafNo, SlotNo};
use base::owner::{Handle, Kind};
use std::alloc::{AllocError, Global};

// Bytes as they stand in a script: an even number of hex digits in lower case.
#[derive(Clone, Copy, PartialEq, Eq, Debug)]
pub struct Hex<'a> {
    digits: &'a [u8],
}

// The devices over the image, the outermost first.
#[derive(Clone, Copy, PartialEq, Eq, Debug)]
pub enum Layers {
    Plain,
    Buffered,
    Failing(u32),
    BufferedFailing(u32),
    FailingBuffered(u32),
}

#[derive(Clone, Copy, PartialEq, Eq, Debug)]
pub enum Command<'a> {
    Card(u16),
    Layers(Layers),
    Block(u16, Hex<'a>),
    Dump(u16),
    Power,
    Format(u16, u16),
    Open,
    Step,
    End,
    Find(Handle, Hex<'a>),
    Path(Hex<'a>),
    List(Handle, u16),
    Status(Handle),
    Damage(u16),
    Space,
    Read(Handle, LeafNo, u16),
    Create(Handle, Hex<'a>, Kind),
    Write(Handle, LeafNo, Hex<'a>),
    Shorten(Handle, LeafNo),
    Remove(Handle, Hex<'a>),
    Sync,
    Screen(Hex<'a>, LeafNo, u16),
}

impl<'a> Hex<'a> {
    // A word as bytes: `-` has none.
    pub fn new(word: &'a [u8]) -> Option<Hex<'a>> {
        if let b"-" = word {
            return Some(Hex { digits: &word[1..] });
        }
        if word.is_empty() || word.len() % 2 == 1 || !all_nibbles(word) {
            return None;
        }
        Some(Hex { digits: word })
    }

    pub fn len(&self) -> usize {
        self.digits.len() / 2
    }

    // The byte at a place; 0 past the end.
    pub fn byte(&self, place: usize) -> u8 {
        self.digits.chunks_exact(2).nth(place).map_or(0, value_of)
    }

    pub fn bytes(&self, heap: Global) -> Result<Vec<u8>, AllocError> {
        self.digits.chunks_exact(2).map(value_of).collect(heap)
    }
}

// The byte that two digits stand for.
fn value_of(pair: &[u8]) -> u8 {
    pair.iter().fold(
        0,
        |value, digit| (value & 15) * 16 + (nibble(*digit).unwrap_or(0) & 15),
    )
}

// The words of a line that are still to be read. No word is left once the line's end was met.
#[derive(Drop)]
pub struct Words<'a> {
    rest: Option<&'a [u8]>,
}

impl<'a> Words<'a> {
    pub fn new(line: &'a [u8]) -> Words<'a> {
        Words { rest: Some(line) }
    }

    // The next word, which may be empty: between two spaces, or at an end of the line.
    pub fn word(&mut self) -> Option<&'a [u8]> {
        let line = self.rest?;
        let end = part_end(line, b' ');
        let (word, behind) = line.split_at(end);
        self.rest = behind.get(1..);
        Some(word)
    }

    fn sixteen(&mut self) -> Option<u16> {
        u16::try_from(number(self.word()?, 65535)?).ok()
    }

    fn lines(&mut self) -> Option<u16> {
        u16::try_from(number(self.word()?, 4096)?).ok()
    }

    fn identity(&mut self) -> Option<u32> {
        number(self.word()?, u32::MAX)
    }

    fn handle(&mut self) -> Option<Handle> {
        let slot = SlotNo(self.sixteen()?);
        let identity = Identity(self.identity()?);
        Some(Handle { slot, identity })
    }

    fn leaf(&mut self) -> Option<LeafNo> {
        Some(LeafNo(self.sixteen()?))
    }

    fn hex(&mut self) -> Option<Hex<'a>> {
        Hex::new(self.word()?)
    }

    fn kind(&mut self) -> Option<Kind> {
        match self.word()? {
            b"file" => Some(Kind::File),
            b"folder" => Some(Kind::Folder),
            _ => None,
        }
    }
}

// The arguments of the commands that have several.
impl<'a> Words<'a> {
    fn layers(&mut self) -> Option<Layers> {
        match self.word()? {
            b"plain" => Some(Layers::Plain),
            b"buffered" => self.below_buffered(),
            b"failing" => self.below_failing(),
            _ => None,
        }
    }

    fn below_buffered(&mut self) -> Option<Layers> {
        match self.word() {
            None => Some(Layers::Buffered),
            Some(b"failing") => Some(Layers::BufferedFailing(self.identity()?)),
            Some(_) => None,
        }
    }

    fn below_failing(&mut self) -> Option<Layers> {
        let writes = self.identity()?;
        match self.word() {
            None => Some(Layers::Failing(writes)),
            Some(b"buffered") => Some(Layers::FailingBuffered(writes)),
            Some(_) => None,
        }
    }

    fn block(&mut self) -> Option<Command<'a>> {
        let at = self.sixteen()?;
        let content = self.hex()?;
        (content.len() == 512).then_some(Command::Block(at, content))
    }

    fn format(&mut self) -> Option<Command<'a>> {
        let blocks = self.sixteen()?;
        Some(Command::Format(blocks, self.sixteen()?))
    }

    fn find(&mut self) -> Option<Command<'a>> {
        let folder = self.handle()?;
        Some(Command::Find(folder, self.hex()?))
    }

    fn list(&mut self) -> Option<Command<'a>> {
        let folder = self.handle()?;
        Some(Command::List(folder, self.lines()?))
    }

    fn read(&mut self) -> Option<Command<'a>> {
        let file = self.handle()?;
        let leaf = self.leaf()?;
        Some(Command::Read(file, leaf, self.sixteen()?))
    }

    fn create(&mut self) -> Option<Command<'a>> {
        let folder = self.handle()?;
        let name = self.hex()?;
        Some(Command::Create(folder, name, self.kind()?))
    }

    fn write(&mut self) -> Option<Command<'a>> {
        let file = self.handle()?;
        let leaf = self.leaf()?;
        Some(Command::Write(file, leaf, self.hex()?))
    }

    fn shorten(&mut self) -> Option<Command<'a>> {
        let file = self.handle()?;
        Some(Command::Shorten(file, self.leaf()?))
    }

    fn remove(&mut self) -> Option<Command<'a>> {
        let folder = self.handle()?;
        Some(Command::Remove(folder, self.hex()?))
    }

    fn screen(&mut self) -> Option<Command<'a>> {
        let path = self.hex()?;
        let leaf = self.leaf()?;
        Some(Command::Screen(path, leaf, self.sixteen()?))
    }
}

// Commands of one word.
fn lone(name: &[u8]) -> Option<Command<'static>> {
    match name {
        b"power" => Some(Command::Power),
        b"open" => Some(Command::Open),
        b"step" => Some(Command::Step),
        b"end" => Some(Command::End),
        b"space" => Some(Command::Space),
        b"sync" => Some(Command::Sync),
        _ => None,
    }
}

// The command that begins with a name; its arguments are taken from the words behind.
fn named<'a>(name: &[u8], words: &mut Words<'a>) -> Option<Command<'a>> {
    match name {
        b"card" => Some(Command::Card(words.lines()?)),
        b"layers" => Some(Command::Layers(words.layers()?)),
        b"block" => words.block(),
        b"dump" => Some(Command::Dump(words.sixteen()?)),
        b"format" => words.format(),
        b"find" => words.find(),
        b"path" => Some(Command::Path(words.hex()?)),
        b"list" => words.list(),
        b"status" => Some(Command::Status(words.handle()?)),
        b"damage" => Some(Command::Damage(words.lines()?)),
        b"read" => words.read(),
        b"create" => words.create(),
        b"write" => words.write(),
        b"shorten" => words.shorten(),
        b"remove" => words.remove(),
        b"screen" => words.screen(),
        _ => lone(name),
    }
}

// A line as a command. None if it is no command; whether the image has a block is not looked at.
pub fn parse<'a>(line: &'a [u8]) -> Option<Command<'a>> {
    let mut words = Words::new(line);
    let name = words.word()?;
    let command = named(name, &mut words)?;
    words.rest.is_none().then_some(command)
}

// Whether a line prints nothing: a note, or spaces alone.
pub fn is_silent(line: &[u8]) -> bool {
    matches!(line.first(), Some(b'#')) || line.iter().all(|byte| *byte == b' ')
}
