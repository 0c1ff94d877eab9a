// Encoders against bytes written out, the owner check and the list.
use base::number::{BlockNo, Identity, LeafNo, SlotNo};
use base::owner::{Back, Handle, Kind};
use encode::block::{
    encode_blank, encode_cover, encode_file_body, encode_folder_body, encode_folder_change,
    encode_slot,
};
use encode::entry::encode_entry;
use encode::slot::copy_numbers;
use layout::block::{Block, Body, Slot, parse};
use layout::geometry::Geometry;
use layout::owner::names;
use listing::line::{DamageLine, NO_DAMAGE};
use listing::list::{Lines, fill_lines};
use std::test::Fail;

fn handle(slot: u16, identity: u32) -> Handle {
    Handle {
        slot: SlotNo(slot),
        identity: Identity(identity),
    }
}

fn back(leaf: u16) -> Back {
    Back {
        owner: handle(1, 2),
        leaf: LeafNo(leaf),
    }
}

#[test]
fn small_blocks(rt: HostRuntime) -> Result<(), Fail> {
    let Some(g) = Geometry::new(8, 3) else {
        return Err(Fail::new("limits"));
    };
    let cover = encode_cover(&g);
    assert!(rt; &cover[0..8] == [1, 1, 8, 0, 3, 0, 0, 0].as_slice());
    assert_eq!(rt; cover[511], 0);
    let blank = encode_blank();
    assert_eq!(rt; blank[0], 0);
    assert_eq!(rt; blank[511], 0);
    Ok(())
}

// A slot and a file's body may be built of any bytes: the parser alone says how long what it borrows is.
#[test]
fn any_bytes(rt: HostRuntime) -> Result<(), Fail> {
    let numbers = [7u8; 131];
    let slot = Slot {
        identity: Identity(2),
        parent: handle(0, 1),
        numbers: &numbers,
    };
    assert_eq!(rt; slot.count(), 65);
    assert!(rt; slot.number(LeafNo(64)) == Some(BlockNo(1799)));
    assert!(rt; slot.number(LeafNo(65)).is_none());
    assert!(rt; copy_numbers(&slot).is_none());
    assert!(rt; names(&slot, &handle(0, 1)));
    let payload = [1u8; 500];
    let body = Body {
        back: back(3),
        payload: &payload,
    };
    assert!(rt; names(&body, &back(3)));
    assert!(rt; !names(&body, &back(2)));
    Ok(())
}

#[test]
fn slot_and_body(rt: HostRuntime) -> Result<(), Fail> {
    let root = handle(0, 1);
    let Some(slot) = encode_slot(Kind::File, Identity(2), &root, &[BlockNo(5)]) else {
        return Err(Fail::new("slot"));
    };
    assert!(rt;
        &slot[0..20] == [2, 0, 1, 0, 2, 0, 0, 0, 1, 0, 0, 0, 0, 0, 0, 0, 5, 0, 0, 0].as_slice()
    );
    assert_eq!(rt; slot[511], 0);
    assert!(rt; encode_slot(Kind::File, Identity(2), &root, &[BlockNo(5); 65]).is_none());
    assert_eq!(rt; slot[0], 2);
    let Some(body) = encode_file_body(&back(0), b"ABC") else {
        return Err(Fail::new("body"));
    };
    assert!(rt;
        &body[0..20]
            == [
                4, 0, 1, 0, 2, 0, 0, 0, 0, 0, 3, 0, 0, 0, 0, 0, 65, 66, 67, 0,
            ]
            .as_slice()
    );
    assert!(rt; encode_file_body(&back(0), &[1; 496]).is_some());
    assert!(rt; encode_file_body(&back(0), &[1; 497]).is_none());
    Ok(())
}

#[test]
fn folder(rt: HostRuntime) -> Result<(), Fail> {
    let Some(cell) = encode_entry(b"alto", &handle(1, 258)) else {
        return Err(Fail::new("name"));
    };
    assert!(rt; &cell[0..13] == [4, 0, 1, 0, 2, 1, 0, 0, 97, 108, 116, 111, 0].as_slice());
    assert!(rt; encode_entry(b"a/b", &handle(1, 2)).is_none());
    let Some(body) = encode_folder_body(&back(1), &[9; 480]) else {
        return Err(Fail::new("body"));
    };
    assert!(rt; &body[0..17] == [5, 0, 1, 0, 2, 0, 0, 0, 1, 0, 224, 1, 0, 0, 0, 0, 9].as_slice());
    assert!(rt; &body[495..512] == [9, 0, 0, 0, 0, 0, 0, 0, 0, 0, 0, 0, 0, 0, 0, 0, 0].as_slice());
    let Some(changed) = encode_folder_change(&back(1), &[8; 480], 2, &cell) else {
        return Err(Fail::new("change"));
    };
    assert_eq!(rt; changed[79], 8);
    assert!(rt; &changed[80..112] == cell.as_slice());
    assert_eq!(rt; changed[112], 8);
    assert!(rt; encode_folder_change(&back(1), &[8; 480], 15, &cell).is_none());
    assert!(rt; encode_folder_change(&back(1), &[8; 479], 2, &cell).is_none());
    Ok(())
}

#[test]
fn owner(rt: HostRuntime) -> Result<(), Fail> {
    let Some(g) = Geometry::new(8, 3) else {
        return Err(Fail::new("limits"));
    };
    let Some(block) = encode_file_body(&back(3), b"ABC") else {
        return Err(Fail::new("body"));
    };
    match parse(&g, BlockNo(4), &block) {
        Block::FileBody(b) => {
            assert!(rt; names(&b, &back(3)));
            assert!(rt; !names(&b, &back(2)));
            Ok(())
        }
        _ => Err(Fail::new("no file body")),
    }
}

fn damage(leaf: u16) -> DamageLine {
    DamageLine {
        slot: SlotNo(4),
        leaf: LeafNo(leaf),
    }
}

#[test]
fn lines(rt: HostRuntime) {
    let mut lines = [NO_DAMAGE; 2];
    let mut list = Lines::over(&mut lines[0..1]);
    list.add(damage(7));
    list.add(damage(8));
    assert_eq!(rt; list.count(), 2);
    assert_eq!(rt; lines[0].leaf.0, 7);
    assert_eq!(rt; lines[1].leaf.0, 0);
}

#[test]
fn cleared_lines(rt: HostRuntime) {
    let mut lines = [damage(7); 2];
    fill_lines(&mut lines, NO_DAMAGE);
    assert_eq!(rt; lines[0].leaf.0, 0);
    assert_eq!(rt; lines[1].slot.0, 0);
}
