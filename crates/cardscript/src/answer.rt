// The lines that are printed.
use base::owner::Handle;
use base::refusal::{PathRefusal, Refusal};
use card::inner::Status;
use card::opened::Surveying;
use card::surveyed::Space;
use listing::line::{DamageLine, EntryLine};
use std::{fmt, io};

// Bytes in hex; none are `-`.
#[derive(Clone, Copy)]
pub struct Hex<'a>(pub &'a [u8]);

impl fmt::Display for Hex<'_> {
    fn fmt<W: fmt::Write>(&self, f: &mut fmt::Formatter<W>) -> fmt::Result {
        if self.0.is_empty() {
            return f.write_str("-");
        }
        for byte in self.0 {
            write!(f, "{byte:02x}")?;
        }
        Ok(())
    }
}

pub fn ok(rt: &impl Print) -> io::Result<()> {
    println!(rt; "ok")
}

pub fn not_now(rt: &impl Print) -> io::Result<()> {
    println!(rt; "not now")
}

pub fn bad_command(rt: &impl Print) -> io::Result<()> {
    println!(rt; "bad command")
}

pub fn refused(rt: &impl Print, refusal: Refusal) -> io::Result<()> {
    let number = refusal.number();
    let layer = refusal.layer();
    let place = refusal.place();
    println!(rt; "refused {number} {layer} {place}")
}

fn path_refused(rt: &impl Print, refusal: PathRefusal) -> io::Result<()> {
    let number = refusal.lower.number();
    let layer = refusal.lower.layer();
    let place = refusal.lower.place();
    let component = refusal.component;
    println!(rt; "refused {number} {layer} {place} at {component}")
}

fn accepted(rt: &impl Print, handle: Handle) -> io::Result<()> {
    let slot = handle.slot;
    let identity = handle.identity;
    println!(rt; "ok {slot} {identity}")
}

// A change without an answer of its own.
pub fn done(rt: &impl Print, answer: Result<(), Refusal>) -> io::Result<()> {
    match answer {
        Ok(()) => ok(rt),
        Err(refusal) => refused(rt, refusal),
    }
}

pub fn found(rt: &impl Print, answer: Result<Handle, Refusal>) -> io::Result<()> {
    match answer {
        Ok(handle) => accepted(rt, handle),
        Err(refusal) => refused(rt, refusal),
    }
}

pub fn led(rt: &impl Print, answer: Result<Handle, PathRefusal>) -> io::Result<()> {
    match answer {
        Ok(handle) => accepted(rt, handle),
        Err(refusal) => path_refused(rt, refusal),
    }
}

pub fn surveying(rt: &impl Print, answer: Result<Surveying, Refusal>) -> io::Result<()> {
    match answer {
        Ok(Surveying { remain, highest }) => println!(rt; "ok {remain} {highest}"),
        Err(refusal) => refused(rt, refusal),
    }
}

pub fn space(rt: &impl Print, answer: Result<Space, Refusal>) -> io::Result<()> {
    match answer {
        Ok(Space { bodies, slots }) => println!(rt; "ok {bodies} {slots}"),
        Err(refusal) => refused(rt, refusal),
    }
}

pub fn status(rt: &impl Print, answer: Result<Status, Refusal>) -> io::Result<()> {
    match answer {
        Ok(
            Status {
                kind,
                count,
                parent,
            },
        ) => {
            let slot = parent.slot;
            let identity = parent.identity;
            println!(rt; "ok {kind} {count} {slot} {identity}")
        }
        Err(refusal) => refused(rt, refusal),
    }
}

// The whole number of entries, and the lines that were filled.
pub fn entries(
    rt: &impl Print,
    answer: Result<usize, Refusal>,
    lines: &[EntryLine],
) -> io::Result<()> {
    let count = match answer {
        Ok(count) => count,
        Err(refusal) => return refused(rt, refusal),
    };
    print!(rt; "ok {count}")?;
    for line in lines.iter().take(count) {
        let name = Hex(line.name());
        let slot = line.slot;
        let identity = line.identity;
        print!(rt; " {name}:{slot}:{identity}")?;
    }
    println!(rt; "")
}

// The whole number of leaves that are not good, and the lines that were filled.
pub fn damage(
    rt: &impl Print,
    answer: Result<usize, Refusal>,
    lines: &[DamageLine],
) -> io::Result<()> {
    let count = match answer {
        Ok(count) => count,
        Err(refusal) => return refused(rt, refusal),
    };
    print!(rt; "ok {count}")?;
    for line in lines.iter().take(count) {
        let slot = line.slot;
        let leaf = line.leaf;
        print!(rt; " {slot}:{leaf}")?;
    }
    println!(rt; "")
}

// The length of a leaf and its bytes, which stand in the front of a buffer.
pub fn leaf(rt: &impl Print, answer: Result<usize, Refusal>, buffer: &[u8]) -> io::Result<()> {
    match answer {
        Ok(length) => {
            let bytes = Hex(buffer.get(..length).unwrap_or(buffer));
            println!(rt; "ok {length} {bytes}")
        }
        Err(refusal) => refused(rt, refusal),
    }
}

// What the call for programs in C answered: a length, or 1,000 and the number of a refusal.
pub fn screen(rt: &impl Print, number: u32, buffer: &[u8]) -> io::Result<()> {
    let length = if number < 1000 { number as usize } else { 0 };
    let bytes = Hex(buffer.get(..length).unwrap_or(buffer));
    println!(rt; "ok {number} {bytes}")
}

// A block as it lies below every layer; none is a bad command.
pub fn dump(rt: &impl Print, block: Option<&[u8; 512]>) -> io::Result<()> {
    match block {
        Some(block) => {
            let bytes = Hex(block);
            println!(rt; "ok {bytes}")
        }
        None => bad_command(rt),
    }
}
