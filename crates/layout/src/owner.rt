// One check for everything that names an owner. Each sort of owned thing has its own back line.
ghost use Rattle.std.specs.Prelude.{◌≡◌, Decides};
ghost use Rattle.layout.specs.Owners.{body_line, folder_body_line, slot_line};

use crate::block::{Body, FolderBody, Slot};
use base::owner::{Back, Handle};

// What an owned thing says of its owner (a back pointer).
pub trait BackLine {
    fn same(&self, other: &Self) -> bool
        ensures { Decides result (self.now ≡ other.now) };
}

impl BackLine for Back {
    fn same(&self, other: &Back) -> bool {
        *self == *other
    }
}

impl BackLine for Handle {
    fn same(&self, other: &Handle) -> bool {
        self.slot == other.slot && self.identity == other.identity
    }
}

// Something that names its owner.
pub trait Owned {
    type Line: BackLine + Drop;

    ghost owner: { Self → Self.Line };

    fn line(&self) -> Self::Line
        ensures { result ≡ owner self.now };
}

// A file's body names its owner's slot and identity, and which leaf it is.
impl Owned for Body<'_> {
    type Line = Back;

    ghost owner = { body_line };

    fn line(&self) -> Back {
        self.back
    }
}

// So does a folder's.
impl Owned for FolderBody<'_> {
    type Line = Back;

    ghost owner = { folder_body_line };

    fn line(&self) -> Back {
        self.back
    }
}

// A slot names the slot and identity of the folder that it is in.
impl Owned for Slot<'_> {
    type Line = Handle;

    ghost owner = { slot_line };

    fn line(&self) -> Handle {
        self.parent
    }
}

// Whether an owned thing names this owner.
pub fn names<O: Owned>(thing: &O, line: &O::Line) -> bool
    ensures { Decides result (O.Owned.owner thing.now ≡ line.now) }
{
    thing.line().same(line)
}
