// The parser at the edges of every field, on a card of 8 blocks and 3 slots.
use base::number::BlockNo;
use layout::block::{Block, parse, parse_cover};
use layout::geometry::Geometry;
use std::test::Fail;

#[test]
fn limits(rt: HostRuntime) {
    // Block count, slot count, and whether they are within the limits.
    let rows = [
        (4, 2, true),
        (3, 2, false),
        (4, 1, false),
        (4096, 2, true),
        (4097, 2, false),
        (258, 256, true),
        (257, 256, false),
        (300, 257, false),
        (0, 0, false),
        (65535, 65535, false),
    ];
    for (blocks, slots, fits) in rows {
        assert_eq!(rt; Geometry::new(blocks, slots).is_some(), fits);
    }
}

// The kinds of block, in the order of their numbers.
#[derive(Clone, Copy, PartialEq, Eq, Debug)]
enum Kind {
    Blank,
    Cover,
    FileSlot,
    FolderSlot,
    FileBody,
    FolderBody,
}

// A row is one block: the kind of a sample, a byte and a number that is written over it there, where the block lies,
// and the kind that it is then, if it is well formed.
type Row = (Kind, u16, u16, u16, Option<Kind>);

fn put(block: &mut [u8; 512], offset: u16, value: u16) {
    let [low, high] = value.to_le_bytes();
    let at = offset as usize;
    if at < 511 {
        block[at] = low;
        block[at + 1] = high;
    }
}

// A block of each kind, well formed.
fn sample(kind: Kind) -> [u8; 512] {
    let mut block = [0; 512];
    match kind {
        Kind::Blank => {}
        Kind::Cover => {
            put(&mut block, 0, 257);
            put(&mut block, 2, 8);
            put(&mut block, 4, 3);
        }
        Kind::FileSlot | Kind::FolderSlot => {
            put(&mut block, 0, kind as u16);
            put(&mut block, 2, 1);
            put(&mut block, 4, 2);
            put(&mut block, 8, 1);
            for pair in block[16..144].chunks_exact_mut(2) {
                pair.copy_from_slice(&[5, 0]);
            }
        }
        Kind::FileBody | Kind::FolderBody => {
            put(&mut block, 0, kind as u16);
            put(&mut block, 2, 1);
            put(&mut block, 4, 2);
            put(&mut block, 10, 480);
        }
    }
    block
}

// The kind of a block, if it is well formed.
fn kind_of(g: &Geometry, at: u16, block: &[u8; 512]) -> Option<Kind> {
    match parse(g, BlockNo(at), block) {
        Block::Blank => Some(Kind::Blank),
        Block::Cover { .. } => Some(Kind::Cover),
        Block::FileSlot(_) => Some(Kind::FileSlot),
        Block::FolderSlot(_) => Some(Kind::FolderSlot),
        Block::FileBody(_) => Some(Kind::FileBody),
        Block::FolderBody(_) => Some(Kind::FolderBody),
        Block::IllFormed => None,
    }
}

fn check_rows(rows: &[Row]) -> Result<(), Fail> {
    let Some(g) = Geometry::new(8, 3) else {
        return Err(Fail::new("limits"));
    };
    for (k, row) in rows.iter().enumerate() {
        let (kind, offset, value, at, is) = *row;
        let mut block = sample(kind);
        put(&mut block, offset, value);
        if kind_of(&g, at, &block) != is {
            return Err(Fail::new(k));
        }
    }
    Ok(())
}

// Byte 300 is not looked at, so that a number there leaves a sample as it is.
#[test]
fn regions() -> Result<(), Fail> {
    check_rows(&[
        (Kind::Cover, 300, 1, 0, Some(Kind::Cover)),
        (Kind::Cover, 300, 1, 1, None),
        (Kind::Cover, 300, 1, 4, None),
        (Kind::FileSlot, 300, 1, 0, None),
        (Kind::FileSlot, 300, 1, 1, Some(Kind::FileSlot)),
        (Kind::FolderSlot, 300, 1, 3, Some(Kind::FolderSlot)),
        (Kind::FolderSlot, 300, 1, 4, None),
        (Kind::FileSlot, 300, 1, 8, None),
        (Kind::FileBody, 300, 1, 3, None),
        (Kind::FileBody, 300, 1, 4, Some(Kind::FileBody)),
        (Kind::FolderBody, 300, 1, 7, Some(Kind::FolderBody)),
        (Kind::FolderBody, 300, 1, 8, None),
        (Kind::FileBody, 300, 1, 65535, None),
        (Kind::FileSlot, 0, 0, 1, Some(Kind::Blank)),
        (Kind::FileBody, 0, 0, 4, Some(Kind::Blank)),
        (Kind::FileSlot, 0, 0, 0, None),
        (Kind::FileSlot, 0, 1, 1, None),
        (Kind::FileSlot, 0, 6, 1, None),
        (Kind::FileBody, 0, 3, 4, None),
        (Kind::FileBody, 0, 255, 4, None),
    ])
}

#[test]
fn slots() -> Result<(), Fail> {
    check_rows(&[
        (Kind::FileSlot, 2, 0, 1, Some(Kind::FileSlot)),
        (Kind::FileSlot, 2, 64, 1, Some(Kind::FileSlot)),
        (Kind::FileSlot, 2, 65, 1, None),
        (Kind::FileSlot, 2, 257, 1, None),
        (Kind::FileSlot, 4, 0, 1, None),
        (Kind::FileSlot, 4, 1, 1, Some(Kind::FileSlot)),
        (Kind::FileSlot, 6, 65535, 1, Some(Kind::FileSlot)),
        (Kind::FileSlot, 8, 0, 1, None),
        (Kind::FileSlot, 10, 65535, 1, Some(Kind::FileSlot)),
        (Kind::FileSlot, 12, 2, 1, Some(Kind::FileSlot)),
        (Kind::FileSlot, 12, 3, 1, None),
        (Kind::FileSlot, 12, 256, 1, None),
        (Kind::FileSlot, 16, 3, 1, None),
        (Kind::FileSlot, 16, 4, 1, Some(Kind::FileSlot)),
        (Kind::FileSlot, 16, 7, 1, Some(Kind::FileSlot)),
        (Kind::FileSlot, 16, 8, 1, None),
        (Kind::FileSlot, 18, 0, 1, Some(Kind::FileSlot)),
        (Kind::FileSlot, 14, 65535, 1, Some(Kind::FileSlot)),
        (Kind::FileSlot, 144, 65535, 1, Some(Kind::FileSlot)),
        (Kind::FileSlot, 510, 65535, 1, Some(Kind::FileSlot)),
    ])
}

#[test]
fn bodies() -> Result<(), Fail> {
    check_rows(&[
        (Kind::FileBody, 2, 0, 4, Some(Kind::FileBody)),
        (Kind::FileBody, 2, 2, 4, Some(Kind::FileBody)),
        (Kind::FileBody, 2, 3, 4, None),
        (Kind::FileBody, 4, 0, 4, None),
        (Kind::FileBody, 4, 1, 4, Some(Kind::FileBody)),
        (Kind::FileBody, 6, 65535, 4, Some(Kind::FileBody)),
        (Kind::FileBody, 8, 63, 4, Some(Kind::FileBody)),
        (Kind::FileBody, 8, 64, 4, None),
        (Kind::FileBody, 10, 0, 4, Some(Kind::FileBody)),
        (Kind::FileBody, 10, 496, 4, Some(Kind::FileBody)),
        (Kind::FileBody, 10, 497, 4, None),
        (Kind::FolderBody, 10, 479, 4, None),
        (Kind::FolderBody, 10, 481, 4, None),
        (Kind::FolderBody, 8, 64, 4, None),
        (Kind::FolderBody, 12, 65535, 4, Some(Kind::FolderBody)),
        (Kind::FolderBody, 16, 65535, 4, Some(Kind::FolderBody)),
        (Kind::FolderBody, 510, 65535, 4, Some(Kind::FolderBody)),
    ])
}

#[test]
fn covers(rt: HostRuntime) -> Result<(), Fail> {
    let rows: [Row; 12] = [
        (Kind::Cover, 0, 257, 0, Some(Kind::Cover)),
        (Kind::Cover, 0, 1, 0, None),
        (Kind::Cover, 0, 513, 0, None),
        (Kind::Cover, 2, 5, 0, Some(Kind::Cover)),
        (Kind::Cover, 2, 4, 0, None),
        (Kind::Cover, 2, 4096, 0, Some(Kind::Cover)),
        (Kind::Cover, 2, 4097, 0, None),
        (Kind::Cover, 4, 2, 0, Some(Kind::Cover)),
        (Kind::Cover, 4, 1, 0, None),
        (Kind::Cover, 4, 6, 0, Some(Kind::Cover)),
        (Kind::Cover, 4, 7, 0, None),
        (Kind::Cover, 6, 65535, 0, Some(Kind::Cover)),
    ];
    for (kind, offset, value, _, is) in rows {
        let mut block = sample(kind);
        put(&mut block, offset, value);
        assert_eq!(rt; parse_cover(&block).is_some(), is.is_some());
    }
    check_rows(&rows)
}
