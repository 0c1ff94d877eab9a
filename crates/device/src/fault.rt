// What a device answers besides bytes.
ghost use Rattle.std.specs.Prelude.{◌≡◌, Some};
ghost use Rattle.std.specs.Fmt.{padded};
ghost use Rattle.device.specs.Answers.{refusal_of, power_gone, fault_text, landed, synced_text};

use base::number::BlockNo;
use base::refusal::Refusal;
use std::error::Error;
use std::fmt;

// Why a device refused a call, with the block called.
#[derive(Clone, Copy, PartialEq, Eq, Debug)]
pub enum Fault {
    PowerGone(BlockNo),
    NoSuchBlock(BlockNo),
}

impl Fault {
    pub fn is_power_gone(&self) -> bool
        ensures { result ≡ power_gone self.now }
    {
        matches!(self, Fault::PowerGone(_))
    }
}

impl fmt::Display for Fault {
    ghost output = { λ e. Some (fault_text e) };

    ghost styled_output = { λ e spec. Some (padded spec (fault_text e)) };

    fn fmt<W: fmt::Write>(&self, f: &mut fmt::Formatter<W>) -> fmt::Result {
        f.pad(match self {
            Fault::PowerGone(_) => "power gone",
            Fault::NoSuchBlock(_) => "no such block",
        })
    }
}

impl Error for Fault {}

// What a sync answers: everything has landed, or the device cannot say.
#[derive(Clone, Copy, PartialEq, Eq, Debug)]
pub enum Synced {
    Settled,
    Unsure,
}

impl Synced {
    // Refused unless everything has landed.
    pub fn landed(self) -> Result<(), Refusal>
        ensures { result ≡ landed self }
    {
        match self {
            Synced::Settled => Ok(()),
            Synced::Unsure => Err(Refusal::SyncUnsure),
        }
    }
}

impl fmt::Display for Synced {
    ghost output = { λ a. Some (synced_text a) };

    ghost styled_output = { λ a spec. Some (padded spec (synced_text a)) };

    fn fmt<W: fmt::Write>(&self, f: &mut fmt::Formatter<W>) -> fmt::Result {
        f.pad(match self {
            Synced::Settled => "settled",
            Synced::Unsure => "unsure",
        })
    }
}

// What stands for the block called where a sync meets power gone.
pub const WHOLE: BlockNo = BlockNo(65535);

impl From<Fault> for Refusal {
    ghost from_gives = { λ f r. r ≡ refusal_of f };

    fn from(fault: Fault) -> Refusal {
        match fault {
            Fault::PowerGone(at) => Refusal::PowerGone(at),
            Fault::NoSuchBlock(at) => Refusal::NoSuchBlock(at),
        }
    }
}
