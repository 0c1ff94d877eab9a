// Lists of calls.
use crate::parts::{Choir, Part};
use base::number::LeafNo;
use base::owner::{Handle, Kind};
use std::alloc::{AllocError, Global};
use trial::call::{Call, Changing, Reading};
use walk::path::ROOT;

// The number of a leaf. Parts are far shorter than 65,535 leaves.
fn leaf_no(k: usize) -> LeafNo {
    LeafNo(k.min(65535) as u16)
}

// A new card is opened and surveyed.
pub fn opened<'a>(heap: Global) -> Result<Vec<Call<'a>>, AllocError> {
    let mut calls = Vec::new(heap);
    open(&mut calls)?;
    Ok(calls)
}

pub fn open(calls: &mut Vec<Call>) -> Result<(), AllocError> {
    calls.push(Call::Open)?;
    calls.push(Call::End)?;
    Ok(())
}

pub fn create<'a>(kind: Kind, folder: Handle, name: &'a str) -> Call<'a> {
    Call::Change(Changing::Create {
        kind,
        folder,
        name: name.as_bytes(),
    })
}

// Writes each of the leaves, in order.
fn write<'a>(
    calls: &mut Vec<Call<'a>>,
    file: Handle,
    leaves: &'a [Vec<u8>],
) -> Result<(), AllocError> {
    for (k, bytes) in leaves.iter().enumerate() {
        calls.push(Call::Change(Changing::Write {
            file,
            leaf: leaf_no(k),
            bytes,
        }))?;
    }
    Ok(())
}

// The old edition of every part goes onto a new card, which is synced.
pub fn old_edition<'a>(heap: Global, choir: &'a Choir) -> Result<Vec<Call<'a>>, AllocError> {
    let mut calls = opened(heap)?;
    calls.push(create(Kind::Folder, ROOT, choir.piece.title))?;
    for part in &choir.parts {
        calls.push(create(Kind::File, choir.folder, part.voice.name()))?;
    }
    for part in &choir.parts {
        write(&mut calls, part.file, &part.old)?;
    }
    calls.push(Call::Change(Changing::Sync))?;
    Ok(calls)
}

// The new edition is written over the old one, leaf by leaf.
pub fn save<'a>(calls: &mut Vec<Call<'a>>, choir: &'a Choir) -> Result<(), AllocError> {
    for part in &choir.parts {
        write(calls, part.file, &part.new)?;
    }
    Ok(())
}

// The parts that have a new edition lose their leaves and get those of the new edition; then the card is synced.
pub fn mend<'a>(calls: &mut Vec<Call<'a>>, choir: &'a Choir) -> Result<(), AllocError> {
    for part in choir.parts.iter().filter(|part| !part.new.is_empty()) {
        calls.push(Call::Change(Changing::Shorten {
            file: part.file,
            n: LeafNo(0),
        }))?;
    }
    save(calls, choir)?;
    calls.push(Call::Change(Changing::Sync))?;
    Ok(())
}

// How many calls look at a part: its path, its status, and a read of each leaf that one of its editions has.
pub fn looks(part: &Part) -> usize {
    part.most().saturating_add(2)
}

fn look_at<'a>(calls: &mut Vec<Call<'a>>, part: &'a Part) -> Result<(), AllocError> {
    let file = part.file;
    calls.push(Call::Read(Reading::Path {
        path: part.path.as_bytes(),
    }))?;
    calls.push(Call::Read(Reading::Status { handle: file }))?;
    for k in 0..part.most() {
        calls.push(Call::Read(Reading::Read {
            file,
            leaf: leaf_no(k),
            room: 496,
        }))?;
    }
    Ok(())
}

// Opens the card as a stand does, and looks at every part.
pub fn look<'a>(calls: &mut Vec<Call<'a>>, choir: &'a Choir) -> Result<(), AllocError> {
    calls.push(Call::Open)?;
    for part in &choir.parts {
        look_at(calls, part)?;
    }
    Ok(())
}
