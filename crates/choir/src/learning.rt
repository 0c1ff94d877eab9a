// What is learnt by making calls on a new card: where its files are, and which blocks a save writes.
use crate::calls::{create, old_edition, open, opened, save};
use crate::lives::{device, live};
use crate::parts::{Choir, Piece, make_part};
use crate::pulling::Pull;
use anyhow::anyhow;
use base::number::BlockNo;
use base::owner::{Handle, Kind};
use power::ledger::LastWrite;
use std::alloc::Global;
use trial::answer::Answer;
use trial::call::Call;
use walk::path::ROOT;

fn handle_of(answer: Option<&Answer>) -> anyhow::Result<Handle> {
    match answer {
        Some(Answer::Handle(Ok(handle))) => Ok(*handle),
        Some(Answer::Handle(Err(refusal))) => Err(anyhow!("a create was refused: {refusal}")),
        _ => Err(anyhow!("a create was not answered")),
    }
}

// Makes the folder and the files once, to learn their handles.
pub fn meet(heap: Global, piece: &Piece) -> anyhow::Result<Choir> {
    let mut calls = opened(heap)?;
    calls.push(create(Kind::Folder, ROOT, piece.title))?;
    let folder = handle_of(live(heap, piece, &calls)?.answers.last())?;
    let mut parts = Vec::new(heap);
    for (voice, count) in piece.leaves {
        calls.push(create(Kind::File, folder, voice.name()))?;
        let file = handle_of(live(heap, piece, &calls)?.answers.last())?;
        parts.push(make_part(heap, piece.title, voice, count, file)?)?;
    }
    Ok(Choir {
        piece: *piece,
        folder,
        parts,
    })
}

// What each block shows once the save has written so many blocks.
fn shown_after(heap: Global, choir: &Choir, accepted: u32) -> anyhow::Result<Vec<[u8; 512]>> {
    let pull = Pull {
        accepted,
        last: LastWrite::Lost,
    };
    let mut calls = old_edition(heap, choir)?;
    calls.push(Call::Cut(&[]))?;
    calls.push(Call::Trouble(pull.trouble()))?;
    open(&mut calls)?;
    save(&mut calls, choir)?;
    let life = live(heap, &choir.piece, &calls)?;
    let ledger = device(&life.stand);
    let mut all = Vec::new(heap);
    for b in 0..choir.piece.blocks {
        all.push(ledger.shown(BlockNo(b)).unwrap_or([0; 512]))?;
    }
    Ok(all)
}

// The first block that differs.
fn changed(before: &[[u8; 512]], after: &[[u8; 512]]) -> Option<BlockNo> {
    (0..65535)
        .zip(before.iter().zip(after))
        .find(|(_, (old, new))| old != new)
        .map(|(b, _)| BlockNo(b))
}

// The blocks that the save of the new edition writes, in their order: one more of them is let through each time, until
// that changes nothing.
pub fn written(heap: Global, choir: &Choir) -> anyhow::Result<Vec<BlockNo>> {
    let mut blocks = Vec::new(heap);
    let mut before = shown_after(heap, choir, 0)?;
    for accepted in 1..64 {
        let after = shown_after(heap, choir, accepted)?;
        let Some(block) = changed(&before, &after) else {
            break;
        };
        blocks.push(block)?;
        before = after;
    }
    Ok(blocks)
}
