// Lives of a card: a list of calls and cuts, made on a new card.
use crate::parts::Piece;
use anyhow::anyhow;
use power::ledger::Ledger;
use std::alloc::Global;
use trial::call::Call;
use trial::run::{Life, Stopped, run};
use trial::stand::Stand;

// More than the writes of any list of calls here.
const LOG: usize = 512;

// Makes the calls on a new card.
pub fn live(heap: Global, piece: &Piece, calls: &[Call]) -> anyhow::Result<Life<Ledger>> {
    let ledger = Ledger::new(heap, piece.blocks, LOG)?;
    match run(heap, ledger, piece.blocks, piece.slots, calls) {
        Ok(life) => Ok(life),
        Err(Stopped::Format(refusal)) => Err(anyhow!("the format was refused: {refusal}")),
        Err(Stopped::Memory(error)) => Err(error.into()),
    }
}

// The device below a card.
pub fn device(stand: &Stand<Ledger>) -> &Ledger {
    match stand {
        Stand::Closed(device) => device,
        Stand::Opened(card) => card.device(),
        Stand::Surveyed(card) => card.device(),
    }
}
