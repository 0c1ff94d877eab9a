// The trouble that awaits a device.
use crate::ledger::LastWrite;

// Of the writes to come so many are accepted, and the next takes the power (`None`: it stays on); what that write leaves;
// and whether a sync answers `Unsure` and settles nothing.
#[derive(Clone, Copy, PartialEq, Eq, Debug)]
pub struct Trouble {
    pub left: Option<u32>,
    pub last: LastWrite,
    pub unsure: bool,
}

// The power stays on, and each sync settles.
pub const NO_TROUBLE: Trouble = Trouble {
    left: None,
    last: LastWrite::Lost,
    unsure: false,
};
