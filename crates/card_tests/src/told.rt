// The reading calls, each asked once for what a good card has.
use crate::image::handle;
use base::number::LeafNo;
use base::refusal::{PathRefusal, Refusal};
use card::readable::Readable;
use listing::line::{NO_DAMAGE, NO_ENTRY};
use walk::path::ROOT;

// What each call is refused with, if it is.
#[derive(Clone, Copy, PartialEq, Eq, Debug)]
pub struct Told {
    pub find: Option<Refusal>,
    pub path: Option<PathRefusal>,
    pub list: Option<Refusal>,
    pub status: Option<Refusal>,
    pub damage: Option<Refusal>,
    pub read: Option<Refusal>,
}

impl Told {
    pub const NOTHING: Told = Told {
        find: None,
        path: None,
        list: None,
        status: None,
        damage: None,
        read: None,
    };

    // Every call is refused with this; a path has come to no component.
    pub fn each(refusal: Refusal) -> Told {
        Told {
            find: Some(refusal),
            path: Some(PathRefusal {
                lower: refusal,
                component: 0,
            }),
            list: Some(refusal),
            status: Some(refusal),
            damage: Some(refusal),
            read: Some(refusal),
        }
    }
}

pub fn ask<C: Readable>(card: &mut C) -> Told {
    let mut entries = [NO_ENTRY; 4];
    let mut damage = [NO_DAMAGE; 4];
    let mut buffer = [0u8; 496];
    Told {
        find: card.find(&ROOT, b"alto").err(),
        path: card.path(b"mass/bass").err(),
        list: card.list(&ROOT, &mut entries).err(),
        status: card.status(&ROOT).err(),
        damage: card.damage(&mut damage).err(),
        read: card.read(&handle(1, 2), LeafNo(0), &mut buffer).err(),
    }
}
