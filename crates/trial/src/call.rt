// What can be done with a card on its device.
use base::number::LeafNo;
use base::owner::{Handle, Kind};
use power::trouble::Trouble;

// A call of an opened or a surveyed card that only reads. `lines` and `room` are the caller's lines and the bytes of the
// caller's buffer.
#[derive(Clone, Copy)]
pub enum Reading<'a> {
    Find {
        folder: Handle,
        name: &'a [u8],
    },
    Path {
        path: &'a [u8],
    },
    List {
        folder: Handle,
        lines: u16,
    },
    Status {
        handle: Handle,
    },
    Damage {
        lines: u16,
    },
    Read {
        file: Handle,
        leaf: LeafNo,
        room: u16,
    },
}

// A call of a surveyed card alone.
#[derive(Clone, Copy)]
pub enum Changing<'a> {
    Space,
    Create {
        kind: Kind,
        folder: Handle,
        name: &'a [u8],
    },
    Write {
        file: Handle,
        leaf: LeafNo,
        bytes: &'a [u8],
    },
    Shorten {
        file: Handle,
        n: LeafNo,
    },
    Remove {
        folder: Handle,
        name: &'a [u8],
    },
    Sync,
}

#[derive(Clone, Copy)]
pub enum Call<'a> {
    // Opens the card: it is closed after the format and after a cut.
    Open,
    // A step of the survey, and its end.
    Step,
    End,
    Read(Reading<'a>),
    Change(Changing<'a>),
    // The plug is pulled, at any time. The numbers say which content lands in each block.
    Cut(&'a [u16]),
    // No call of the card: its device is told of the trouble that awaits it, while the card is closed.
    Trouble(Trouble),
}
