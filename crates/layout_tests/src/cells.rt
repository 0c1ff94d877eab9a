// Entries, names and what a block tells, on a card of 8 blocks and 3 slots.
use base::number::{BlockNo, Identity, LeafNo, SlotNo};
use base::owner::{Back, Handle};
use encode::block::encode_folder_change;
use encode::entry::encode_entry;
use entries::entry::{Cell, cell_bytes, name_fits, parse_cell};
use entries::identity::highest_told;
use layout::geometry::Geometry;
use std::test::Fail;

// What a cell may be.
#[derive(Clone, Copy, PartialEq, Eq, Debug)]
enum State {
    Blank,
    Used,
    IllFormed,
}

// A row is one cell: its length byte, the low bytes of the child's slot and identity, a byte that is written over at one
// place, and what the cell is then.
type Row = ([u8; 5], State);

fn cell(bytes: [u8; 5]) -> [u8; 32] {
    let [length, slot, identity, at, byte] = bytes;
    let mut cell = [97; 32];
    cell[0..8].copy_from_slice(&[length, 0, slot, 0, identity, 0, 0, 0]);
    if (at as usize) < 32 {
        cell[at as usize] = byte;
    }
    cell
}

fn state_of(g: &Geometry, bytes: &[u8]) -> State {
    match parse_cell(g, bytes) {
        Cell::Blank => State::Blank,
        Cell::Used(_) => State::Used,
        Cell::IllFormed => State::IllFormed,
    }
}

// Byte 1 is not looked at.
#[test]
fn entries(rt: HostRuntime) -> Result<(), Fail> {
    let Some(g) = Geometry::new(8, 3) else {
        return Err(Fail::new("limits"));
    };
    let rows: [Row; 18] = [
        ([0, 1, 1, 1, 0], State::IllFormed),
        ([1, 1, 1, 1, 0], State::Used),
        ([24, 1, 1, 1, 255], State::Used),
        ([25, 1, 1, 1, 0], State::IllFormed),
        ([255, 1, 1, 1, 0], State::IllFormed),
        ([4, 0, 1, 1, 0], State::IllFormed),
        ([4, 2, 1, 1, 0], State::Used),
        ([4, 3, 1, 1, 0], State::IllFormed),
        ([4, 1, 1, 3, 1], State::IllFormed),
        ([4, 1, 0, 1, 0], State::IllFormed),
        ([4, 1, 0, 7, 255], State::Used),
        ([4, 1, 1, 8, 47], State::IllFormed),
        ([4, 1, 1, 8, 0], State::IllFormed),
        ([4, 1, 1, 8, 46], State::Used),
        ([4, 1, 1, 11, 47], State::IllFormed),
        ([4, 1, 1, 12, 47], State::Used),
        ([24, 1, 1, 31, 0], State::IllFormed),
        ([23, 1, 1, 31, 0], State::Used),
    ];
    for (bytes, is) in rows {
        assert_eq!(rt; state_of(&g, &cell(bytes)), is);
    }
    assert_eq!(rt; state_of(&g, &[0; 32]), State::Blank);
    assert_eq!(rt; state_of(&g, &[0; 31]), State::IllFormed);
    Ok(())
}

#[test]
fn names(rt: HostRuntime) {
    assert!(rt; name_fits(b"a"));
    assert!(rt; name_fits(&[97; 24]));
    assert!(rt; !name_fits(b""));
    assert!(rt; !name_fits(&[97; 25]));
    assert!(rt; !name_fits(b"a/b"));
    assert!(rt; !name_fits(&[97, 0]));
    assert!(rt; name_fits(&[255, 1, 46, 48]));
}

#[test]
fn told(rt: HostRuntime) -> Result<(), Fail> {
    let Some(g) = Geometry::new(8, 3) else {
        return Err(Fail::new("limits"));
    };
    let back = Back {
        owner: Handle {
            slot: SlotNo(0),
            identity: Identity(1),
        },
        leaf: LeafNo(0),
    };
    let child = Handle {
        slot: SlotNo(2),
        identity: Identity(70000),
    };
    let Some(last) = encode_entry(b"bass", &child) else {
        return Err(Fail::new("name"));
    };
    let Some(block) = encode_folder_change(&back, &[0; 480], 14, &last) else {
        return Err(Fail::new("folder"));
    };
    assert_eq!(rt; highest_told(&g, BlockNo(4), &block).0, 70000);
    assert_eq!(rt; highest_told(&g, BlockNo(3), &block).0, 0);
    assert!(rt; cell_bytes(&block[16..496], 14) == Some(&block[464..496]));
    assert!(rt; cell_bytes(&block[16..496], 15).is_none());
    Ok(())
}
