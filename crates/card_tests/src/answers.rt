// What the reading calls answer, and what they leave in lines and buffers.
use crate::image::{SIZE, example, handle, put_file};
use base::number::{Identity, LeafNo, SlotNo};
use base::owner::{Handle, Kind};
use base::refusal::Refusal;
use card::opened::open;
use card::readable::Readable;
use device::plain::Plain;
use listing::line::{DamageLine, EntryLine};
use walk::path::ROOT;

// Lines that no call of these tests fills in.
pub const OLD_ENTRY: EntryLine = EntryLine {
    name: [7; 24],
    length: 7,
    slot: SlotNo(7),
    identity: Identity(7),
};

pub const OLD_DAMAGE: DamageLine = DamageLine {
    slot: SlotNo(7),
    leaf: LeafNo(7),
};

// The example, where leaf 1 of alto and the leaf of bass name other leaves.
pub fn damaged() -> [u8; SIZE] {
    let mut image = example();
    put_file(&mut image, 7, handle(1, 2), 0, b"Gloria");
    put_file(&mut image, 9, handle(1, 2), 0, b"Sanctus");
    image
}

#[test]
fn handles_are_found(rt: HostRuntime) {
    let mut image = example();
    let mut card = open(Plain::new(&mut image));
    assert_eq!(rt; card.find(&ROOT, b"alto"), Ok(handle(1, 2)));
    assert_eq!(rt; card.find(&handle(2, 3), b"bass"), Ok(handle(3, 4)));
    assert_eq!(rt; card.path(b""), Ok(ROOT));
    assert_eq!(rt; card.path(b"mass"), Ok(handle(2, 3)));
    assert_eq!(rt; card.path(b"mass/bass"), Ok(handle(3, 4)));
}

#[test]
fn a_status_tells_kind_count_and_parent(rt: HostRuntime) {
    let mut image = example();
    let mut card = open(Plain::new(&mut image));
    let told = |answer: Result<card::inner::Status, Refusal>| {
        answer.map(|status| (status.kind, status.count, status.parent))
    };
    assert_eq!(rt; told(card.status(&ROOT)), Ok((Kind::Folder, 1, ROOT)));
    assert_eq!(rt; told(card.status(&handle(1, 2))), Ok((Kind::File, 2, ROOT)));
    assert_eq!(rt;
        told(card.status(&handle(3, 4))),
        Ok((Kind::File, 1, handle(2, 3)))
    );
}

// The line of an entry: its name and its child.
fn entry(name: &[u8], child: &Handle) -> EntryLine {
    EntryLine::new(name, child).unwrap_or(OLD_ENTRY)
}

#[test]
fn a_list_fills_the_first_lines(rt: HostRuntime) {
    let mut image = example();
    let mut card = open(Plain::new(&mut image));
    let alto = entry(b"alto", &handle(1, 2));
    let mass = entry(b"mass", &handle(2, 3));
    let mut lines = [OLD_ENTRY; 3];
    assert_eq!(rt; card.list(&ROOT, &mut lines), Ok(2));
    assert_eq!(rt; lines, [alto, mass, OLD_ENTRY]);
    let mut few = [OLD_ENTRY; 1];
    assert_eq!(rt; card.list(&ROOT, &mut few), Ok(2));
    assert_eq!(rt; few, [alto]);
    assert_eq!(rt; card.list(&ROOT, &mut []), Ok(2));
}

#[test]
fn damage_goes_by_slot_and_leaf(rt: HostRuntime) {
    let mut image = damaged();
    let mut card = open(Plain::new(&mut image));
    let of_alto = DamageLine {
        slot: SlotNo(1),
        leaf: LeafNo(1),
    };
    let of_bass = DamageLine {
        slot: SlotNo(3),
        leaf: LeafNo(0),
    };
    let mut lines = [OLD_DAMAGE; 3];
    assert_eq!(rt; card.damage(&mut lines), Ok(2));
    assert_eq!(rt; lines, [of_alto, of_bass, OLD_DAMAGE]);
    let mut few = [OLD_DAMAGE; 1];
    assert_eq!(rt; card.damage(&mut few), Ok(2));
    assert_eq!(rt; few, [of_alto]);
}

#[test]
fn a_read_fills_only_the_front(rt: HostRuntime) {
    let mut image = example();
    let mut card = open(Plain::new(&mut image));
    let mut buffer = [7u8; 500];
    assert_eq!(rt; card.read(&handle(1, 2), LeafNo(1), &mut buffer), Ok(6));
    assert_eq!(rt; &buffer[..6], b"Gloria".as_slice());
    assert_eq!(rt; &buffer[6..], [7u8; 494].as_slice());
}
