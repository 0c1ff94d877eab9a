// Numbers, kinds and refusals as they are printed.
ghost use Rattle.std.specs.Prelude.{◌≡◌, Some};
ghost use Rattle.std.specs.Fmt.{decimal, styled_decimal, padded};
ghost use Rattle.base.specs.Text.{kind_text, layer_text, words_of, refusal_text, path_refusal_text};

use crate::number::{BlockNo, Identity, LeafNo, SlotNo};
use crate::owner::Kind;
use crate::refusal::{Layer, PathRefusal, Refusal};
use std::error::Error;
use std::fmt;

// Kept: the gate refuses impls that a macro of the repository writes, so the four numbers print by four impls.
impl fmt::Display for BlockNo {
    ghost output = { λ n. Some (decimal n.0) };

    ghost styled_output = { λ n spec. Some (styled_decimal spec n.0) };

    fn fmt<W: fmt::Write>(&self, f: &mut fmt::Formatter<W>) -> fmt::Result {
        let BlockNo(number) = self;
        fmt::Display::fmt(number, f)
    }
}

impl fmt::Display for SlotNo {
    ghost output = { λ n. Some (decimal n.0) };

    ghost styled_output = { λ n spec. Some (styled_decimal spec n.0) };

    fn fmt<W: fmt::Write>(&self, f: &mut fmt::Formatter<W>) -> fmt::Result {
        let SlotNo(number) = self;
        fmt::Display::fmt(number, f)
    }
}

impl fmt::Display for LeafNo {
    ghost output = { λ n. Some (decimal n.0) };

    ghost styled_output = { λ n spec. Some (styled_decimal spec n.0) };

    fn fmt<W: fmt::Write>(&self, f: &mut fmt::Formatter<W>) -> fmt::Result {
        let LeafNo(number) = self;
        fmt::Display::fmt(number, f)
    }
}

impl fmt::Display for Identity {
    ghost output = { λ n. Some (decimal n.0) };

    ghost styled_output = { λ n spec. Some (styled_decimal spec n.0) };

    fn fmt<W: fmt::Write>(&self, f: &mut fmt::Formatter<W>) -> fmt::Result {
        let Identity(number) = self;
        fmt::Display::fmt(number, f)
    }
}

impl fmt::Display for Kind {
    ghost output = { λ k. Some (kind_text k) };

    ghost styled_output = { λ k spec. Some (padded spec (kind_text k)) };

    fn fmt<W: fmt::Write>(&self, f: &mut fmt::Formatter<W>) -> fmt::Result {
        f.pad(match self {
            Kind::File => "file",
            Kind::Folder => "folder",
        })
    }
}

impl fmt::Display for Layer {
    ghost output = { λ l. Some (layer_text l) };

    ghost styled_output = { λ l spec. Some (padded spec (layer_text l)) };

    fn fmt<W: fmt::Write>(&self, f: &mut fmt::Formatter<W>) -> fmt::Result {
        f.pad(match self {
            Layer::Device => "device",
            Layer::Card => "card",
            Layer::File => "file",
        })
    }
}

// What a refusal says, without its number, layer and place.
fn words(refusal: &Refusal) -> &'static str
    ensures { result.now ≡ words_of refusal.now }
{
    match refusal {
        Refusal::PowerGone(_) => "the power is gone",
        Refusal::SyncUnsure => "the sync could not say whether everything has landed",
        Refusal::BadCard(_) => "the card's cover or its root is bad",
        Refusal::SmallDevice(_) => "the image has fewer blocks than the card",
        Refusal::NoSuchHandle(_) => "there is no such file or folder",
        Refusal::WrongKind(_) => "a file where a folder is wanted, or the reverse",
        Refusal::NoSuchLeaf(_) => "there is no such leaf",
        Refusal::LeafNotGood(_) => "the leaf's body does not name it",
        Refusal::NoSuchName(_) => "there is no such name",
        Refusal::NameTaken(_) => "the name is taken",
        Refusal::BadName(_) => "that is not a name",
        Refusal::BadLength(_) => "too much to write, or too little room to read into",
        Refusal::NoFreeBody(_) => "no body is free",
        Refusal::NoFreeSlot(_) => "no slot is free",
        Refusal::FolderFull(_) => "the folder is full",
        Refusal::IdentitiesSpent => "the highest identity has been given",
        Refusal::FolderNotEmpty(_) => "the folder is not empty",
        Refusal::BadLimits(_) => "the block count or the slot count is outside its limits",
        Refusal::NoSuchBlock(_) => "the device has no such block",
    }
}

impl fmt::Display for Refusal {
    ghost output = { λ r. Some (refusal_text r) };

    fn fmt<W: fmt::Write>(&self, f: &mut fmt::Formatter<W>) -> fmt::Result {
        let said = words(self);
        let number = self.number();
        let layer = self.layer();
        let place = self.place();
        write!(f, "{said} (refusal {number}, {layer}, place {place})")
    }
}

impl Error for Refusal {}

impl fmt::Display for PathRefusal {
    ghost output = { λ r. Some (path_refusal_text r) };

    fn fmt<W: fmt::Write>(&self, f: &mut fmt::Formatter<W>) -> fmt::Result {
        let component = self.component;
        let lower = self.lower;
        write!(f, "at component {component}: {lower}")
    }
}

impl Error for PathRefusal {}
