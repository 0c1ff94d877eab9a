// The plug is pulled, and what waited lands in some mixture.
use crate::calls::{old_edition, open, save};
use crate::parts::Choir;
use base::number::BlockNo;
use power::ledger::LastWrite;
use power::trouble::Trouble;
use std::alloc::{AllocError, Global};
use std::collections::BTreeSet;
use trial::call::Call;

// When the plug is pulled: so many writes of the save are accepted; and what the write that takes the power leaves.
#[derive(Clone, Copy)]
pub struct Pull {
    pub accepted: u32,
    pub last: LastWrite,
}

impl Pull {
    pub fn trouble(&self) -> Trouble {
        Trouble {
            left: Some(self.accepted),
            last: self.last,
            unsure: false,
        }
    }

    // How many blocks wait then, each of them with its old content and a new one.
    pub fn waiting(&self) -> u32 {
        match self.last {
            LastWrite::Lost => self.accepted,
            LastWrite::MayStand => self.accepted.saturating_add(1),
        }
    }
}

// Of the blocks that wait, in the order of their writes, the i-th lands if bit i is set.
#[derive(Clone, Copy, PartialEq, Eq, PartialOrd, Ord)]
pub struct Mixture(pub u64);

// A pull of the plug, and what landed then.
#[derive(Clone, Copy)]
pub struct Landed {
    pub pull: Pull,
    pub mixture: Mixture,
}

// So many ones, from bit 0 on.
fn ones(n: u32) -> u64 {
    if n >= 64 {
        u64::MAX
    } else {
        1u64.wrapping_shl(n).wrapping_sub(1)
    }
}

fn lands(mixture: Mixture, i: u32) -> bool {
    mixture.0.wrapping_shr(i) & 1 == 1
}

// A mixture drawn from a seed.
fn drawn(seed: u64) -> u64 {
    let mut x = seed.wrapping_mul(0x9e37_79b9_7f4a_7c15);
    x ^= x.wrapping_shr(30);
    x = x.wrapping_mul(0xbf58_476d_1ce4_e5b9);
    x ^= x.wrapping_shr(27);
    x = x.wrapping_mul(0x94d0_49bb_1331_11eb);
    x ^ x.wrapping_shr(31)
}

// Of so many waiting blocks every mixture is tried.
pub const FEW: u32 = 8;

// How many mixtures are drawn where not all of them are tried.
pub const DRAWN: u64 = 24;

// All mixtures of few waiting blocks. Of more: the first ones land, a single one lands, all but one land, and some
// that are drawn.
pub fn mixtures(heap: Global, waiting: u32) -> Result<BTreeSet<Mixture>, AllocError> {
    let mut some = BTreeSet::new(heap);
    let all = ones(waiting);
    if waiting <= FEW {
        for mixture in 0..=all {
            some.insert(Mixture(mixture))?;
        }
        return Ok(some);
    }
    some.insert(Mixture(all))?;
    for i in 0..waiting {
        let one = 1u64.wrapping_shl(i);
        some.insert(Mixture(ones(i)))?;
        some.insert(Mixture(one))?;
        some.insert(Mixture(all ^ one))?;
    }
    for seed in 0..DRAWN {
        some.insert(Mixture(drawn(seed) & all))?;
    }
    Ok(some)
}

// The number for each block of the card: 1, its newest content, for the waiting blocks that land, and else 0.
pub fn landing(
    heap: Global,
    blocks: u16,
    waiting: &[BlockNo],
    mixture: Mixture,
) -> Result<Vec<u16>, AllocError> {
    let mut numbers = vec![in heap; 0; blocks as usize]?;
    for (i, block) in (0..64).zip(waiting) {
        if let Some(number) = numbers.get_mut(block.0 as usize)
            && lands(mixture, i)
        {
            *number = 1;
        }
    }
    Ok(numbers)
}

// One life of the card: the old edition is settled, the plug is pulled in the save of the new one, and each block lands
// as is said.
pub fn pulled<'a>(
    heap: Global,
    choir: &'a Choir,
    pull: &Pull,
    landing: &'a [u16],
) -> Result<Vec<Call<'a>>, AllocError> {
    let mut calls = old_edition(heap, choir)?;
    calls.push(Call::Cut(&[]))?;
    calls.push(Call::Trouble(pull.trouble()))?;
    open(&mut calls)?;
    save(&mut calls, choir)?;
    calls.push(Call::Cut(landing))?;
    Ok(calls)
}
