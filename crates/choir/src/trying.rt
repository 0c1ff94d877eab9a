// The plug is pulled again and again, at every point of a save.
use crate::calls::look;
use crate::counting::{met_power_gone, see};
use crate::lives::live;
use crate::parts::Choir;
use crate::pulling::{Landed, Pull, landing, mixtures, pulled};
use crate::sums::Sums;
use anyhow::ensure;
use base::number::BlockNo;
use power::ledger::LastWrite;
use std::alloc::Global;

// The list of calls with which the plug is pulled once; it ends in the look of a stand.
fn try_one(
    heap: Global,
    choir: &Choir,
    written: &[BlockNo],
    landed: &Landed,
    sums: &mut Sums,
) -> anyhow::Result<()> {
    let numbers = landing(heap, choir.piece.blocks, written, landed.mixture)?;
    let mut calls = pulled(heap, choir, &landed.pull, &numbers)?;
    look(&mut calls, choir)?;
    let life = live(heap, &choir.piece, &calls)?;
    let is_cut_short = (landed.pull.accepted as usize) < written.len();
    ensure!(
        met_power_gone(&life.answers) == is_cut_short,
        "the power did not go where it was to go"
    );
    let seen = see(heap, choir, &life.answers)?;
    sums.calls = sums.calls.saturating_add(calls.len());
    sums.take(choir, landed, &seen);
    Ok(())
}

// One pull of the plug, with many landings.
fn try_pull(
    heap: Global,
    choir: &Choir,
    written: &[BlockNo],
    pull: Pull,
    sums: &mut Sums,
) -> anyhow::Result<()> {
    sums.pulls = sums.pulls.saturating_add(1);
    for mixture in &mixtures(heap, pull.waiting())? {
        let landed = Landed {
            pull,
            mixture: *mixture,
        };
        try_one(heap, choir, written, &landed, sums)?;
    }
    Ok(())
}

// The plug is pulled at each write of the save, with each of the two things that this write can leave, and after the last.
pub fn try_all(heap: Global, choir: &Choir, written: &[BlockNo]) -> anyhow::Result<Sums> {
    let mut sums = Sums::new(heap, choir)?;
    let writes = written.len().min(64) as u32;
    for accepted in 0..writes {
        for last in [LastWrite::Lost, LastWrite::MayStand] {
            try_pull(heap, choir, written, Pull { accepted, last }, &mut sums)?;
        }
    }
    let after_all = Pull {
        accepted: writes,
        last: LastWrite::Lost,
    };
    try_pull(heap, choir, written, after_all, &mut sums)?;
    Ok(sums)
}
