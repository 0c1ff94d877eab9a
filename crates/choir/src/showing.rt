// The whole demonstration.
use crate::calls::{look, mend, old_edition, open};
use crate::counting::see;
use crate::learning::{meet, written};
use crate::lives::live;
use crate::parts::{Choir, GLORIA, KYRIE, Piece};
use crate::pulling::{Landed, landing, pulled};
use crate::telling::{
    tell_alto, tell_parts, tell_read_back, tell_save, tell_table, tell_tries, tell_worst,
};
use crate::trying::try_all;
use anyhow::{anyhow, ensure};
use base::number::BlockNo;
use trial::call::Call;

// Looks at what a list of calls left, and says how many leaves are as they should be.
fn read_back<'a>(
    rt: &HostRuntime,
    choir: &'a Choir,
    mut calls: Vec<Call<'a>>,
    is_new: bool,
) -> anyhow::Result<()> {
    let heap = rt.alloc();
    calls.push(Call::Cut(&[]))?;
    look(&mut calls, choir)?;
    let life = live(heap, &choir.piece, &calls)?;
    let seen = see(heap, choir, &life.answers)?;
    let mut wanted = 0usize;
    let mut right = 0usize;
    for (part, tally) in choir.parts.iter().zip(&seen) {
        let anew = is_new && !part.new.is_empty();
        let leaves = if anew { &part.new } else { &part.old };
        let same = if anew { tally.new } else { tally.old };
        wanted = wanted.saturating_add(leaves.len());
        right = right.saturating_add(same as usize);
    }
    tell_read_back(rt, right, wanted)?;
    ensure!(right == wanted, "not every leaf is as it was written");
    Ok(())
}

// The worst of the landings once more; then the alto part is saved again.
fn mended(
    rt: &HostRuntime,
    choir: &Choir,
    written: &[BlockNo],
    landed: &Landed,
) -> anyhow::Result<()> {
    let heap = rt.alloc();
    let numbers = landing(heap, choir.piece.blocks, written, landed.mixture)?;
    let mut calls = pulled(heap, choir, &landed.pull, &numbers)?;
    open(&mut calls)?;
    mend(&mut calls, choir)?;
    read_back(rt, choir, calls, true)
}

// A piece goes onto a card, and the plug is pulled while its alto part is saved anew.
fn show(rt: &HostRuntime, piece: &Piece) -> anyhow::Result<()> {
    let heap = rt.alloc();
    let choir = meet(heap, piece)?;
    tell_parts(rt, &choir)?;
    read_back(rt, &choir, old_edition(heap, &choir)?, false)?;
    let written = written(heap, &choir)?;
    tell_save(rt, &choir, &written)?;
    let sums = try_all(heap, &choir, &written)?;
    tell_tries(rt, &sums, &written)?;
    tell_table(rt, &choir, &sums)?;
    let other = sums.parts.iter().any(|tally| tally.other > 0);
    ensure!(!other, "a leaf showed something else");
    let Some(worst) = sums.worst else {
        return Err(anyhow!("no plug was pulled"));
    };
    tell_alto(rt, &sums)?;
    tell_worst(rt, &worst, &written)?;
    mended(rt, &choir, &written, &worst.landed)
}

// Shows it for a small save, with every landing, and for a large one.
pub fn demonstrate(rt: &HostRuntime) -> anyhow::Result<()> {
    show(rt, &KYRIE)?;
    println!(rt; "")?;
    show(rt, &GLORIA)
}
