// The limits of names, lengths, leaves, blocks and slots: what just passes, and what just does not.
use crate::table::{Ask, Reply, holds, new_card, on_device};
use base::number::{BlockNo, LeafNo};
use base::owner::Kind;
use base::refusal::Layer;
use card::opened::open;
use card::readable::Readable;
use card_tests::image::{example, handle, put_slot};
use device::Device;
use format::format;
use power::ledger::Ledger;
use std::test::Fail;
use walk::path::ROOT;

const LONG: [u8; 25] = [97; 25];

const FULL: [u8; 497] = [65; 497];

#[test]
fn names_of_24_bytes_pass(rt: HostRuntime) -> Result<(), Fail> {
    let mut card = new_card(rt.alloc(), 8, 3)?;
    let alto = handle(1, 2);
    let (name, _) = LONG.split_at(24);
    holds(
        &rt,
        rt.alloc(),
        &mut card,
        &[
            (
                Ask::Create(Kind::File, ROOT, name),
                Reply::At(alto),
                &[1, 2, 4],
            ),
            (
                Ask::Create(Kind::File, ROOT, &LONG),
                Reply::Refused(11, Layer::File, 25),
                &[],
            ),
            (
                Ask::Create(Kind::File, ROOT, b""),
                Reply::Refused(11, Layer::File, 0),
                &[],
            ),
            (
                Ask::Create(Kind::File, ROOT, b"a/b"),
                Reply::Refused(11, Layer::File, 3),
                &[],
            ),
            (
                Ask::Create(Kind::File, ROOT, &[97, 0]),
                Reply::Refused(11, Layer::File, 2),
                &[],
            ),
            (
                Ask::Find(ROOT, &LONG),
                Reply::Refused(11, Layer::File, 25),
                &[],
            ),
            (
                Ask::Remove(ROOT, &LONG),
                Reply::Refused(11, Layer::File, 25),
                &[],
            ),
            (
                Ask::Path(b"a//b"),
                Reply::Stopped(11, Layer::File, 0, 1),
                &[],
            ),
            (Ask::Path(b"a/"), Reply::Stopped(11, Layer::File, 0, 1), &[]),
            (
                Ask::Path(&LONG),
                Reply::Stopped(11, Layer::File, 25, 0),
                &[],
            ),
            (Ask::Path(name), Reply::At(alto), &[]),
        ],
    )
}

#[test]
fn leaves_of_496_bytes_pass(rt: HostRuntime) -> Result<(), Fail> {
    let mut card = new_card(rt.alloc(), 8, 3)?;
    let alto = handle(1, 2);
    let (bytes, _) = FULL.split_at(496);
    holds(
        &rt,
        rt.alloc(),
        &mut card,
        &[
            (
                Ask::Create(Kind::File, ROOT, b"alto"),
                Reply::At(alto),
                &[1, 2, 4],
            ),
            (Ask::Write(alto, 0, bytes), Reply::Done, &[2, 5]),
            (
                Ask::Write(alto, 0, &FULL),
                Reply::Refused(12, Layer::File, 497),
                &[],
            ),
            (
                Ask::Write(alto, 1, &FULL),
                Reply::Refused(12, Layer::File, 497),
                &[],
            ),
            (
                Ask::Write(alto, 9, &FULL),
                Reply::Refused(12, Layer::File, 497),
                &[],
            ),
            (Ask::Read(alto, 0), Reply::Leaf(496, [65; 3]), &[]),
        ],
    )
}

// Device blocks, N, S, and number, layer and place of the refusal.
const SIZES: [(u16, u16, u16, Option<(u8, Layer, u64)>); 10] = [
    (4, 4, 2, None),
    (4, 3, 2, Some((18, Layer::Card, 3))),
    (8, 8, 6, None),
    (8, 8, 7, Some((18, Layer::Card, 8))),
    (8, 8, 1, Some((18, Layer::Card, 8))),
    (7, 8, 3, Some((4, Layer::Card, 8))),
    (7, 8, 7, Some((18, Layer::Card, 8))),
    (258, 258, 256, None),
    (259, 259, 257, Some((18, Layer::Card, 259))),
    (8, 4097, 2, Some((18, Layer::Card, 4097))),
];

#[test]
fn sizes_of_cards(rt: HostRuntime) -> Result<(), Fail> {
    for (blocks, n, s, due) in SIZES {
        let mut device = Ledger::new(rt.alloc(), blocks, 8)?;
        let told = match format(&mut device, n, s) {
            Ok(()) => None,
            Err(e) => Some((e.number(), e.layer(), e.place())),
        };
        assert_eq!(rt; told, due, "{n} blocks and {s} slots on {blocks}");
        assert_eq!(rt; open(device).path(b"").is_ok(), due.is_none());
    }
    Ok(())
}

#[test]
fn format_leaves_what_is_past_the_card(rt: HostRuntime) -> Result<(), Fail> {
    let mut device = Ledger::new(rt.alloc(), 8, 32)?;
    for at in 0..8 {
        device.write(BlockNo(at), &[7; 512])?;
    }
    format(&mut device, 5, 2)?;
    assert_eq!(rt; device.shown(BlockNo(4)), Some([0; 512]));
    assert_eq!(rt; device.shown(BlockNo(5)), Some([7; 512]));
    assert_eq!(rt; device.shown(BlockNo(7)), Some([7; 512]));
    Ok(())
}

#[test]
fn a_file_has_64_leaves_at_most(rt: HostRuntime) -> Result<(), Fail> {
    let mut card = new_card(rt.alloc(), 69, 2)?;
    let alto = handle(1, 2);
    assert_eq!(rt; card.create(Kind::File, &ROOT, b"alto"), Ok(alto));
    for leaf in 0u16..64 {
        assert_eq!(rt;
            card.write(&alto, LeafNo(leaf), &leaf.to_be_bytes()),
            Ok(())
        );
    }
    holds(
        &rt,
        rt.alloc(),
        &mut card,
        &[
            (Ask::Status(alto), Reply::Is(Kind::File, 64, ROOT), &[]),
            (Ask::Space, Reply::Free(1, 0), &[]),
            (
                Ask::Write(alto, 64, b"x"),
                Reply::Refused(7, Layer::File, 64),
                &[],
            ),
            (
                Ask::Write(alto, 65535, b"x"),
                Reply::Refused(7, Layer::File, 65535),
                &[],
            ),
            (
                Ask::Shorten(alto, 65),
                Reply::Refused(7, Layer::File, 65),
                &[],
            ),
            (Ask::Read(alto, 63), Reply::Leaf(2, [0, 63, 0]), &[]),
            (Ask::Read(alto, 64), Reply::Refused(7, Layer::File, 64), &[]),
        ],
    )
}

#[test]
fn the_16th_entry_gives_its_folder_a_leaf(rt: HostRuntime) -> Result<(), Fail> {
    let mut card = new_card(rt.alloc(), 25, 20)?;
    for slot in 1u16..16 {
        let made = card.create(Kind::File, &ROOT, &slot.saturating_add(24929).to_be_bytes());
        assert_eq!(rt; made, Ok(handle(slot, slot as u32 + 1)));
    }
    holds(
        &rt,
        rt.alloc(),
        &mut card,
        &[
            (Ask::Status(ROOT), Reply::Is(Kind::Folder, 1, ROOT), &[]),
            (
                Ask::Create(Kind::File, ROOT, b"alto"),
                Reply::At(handle(16, 17)),
                &[1, 17, 22],
            ),
            (Ask::Status(ROOT), Reply::Is(Kind::Folder, 2, ROOT), &[]),
            (Ask::Remove(ROOT, b"ac"), Reply::Done, &[3, 21]),
            (
                Ask::Create(Kind::File, ROOT, b"bass"),
                Reply::At(handle(17, 18)),
                &[18, 21],
            ),
            (Ask::Path(b"bass"), Reply::At(handle(17, 18)), &[]),
            (Ask::Space, Reply::Free(2, 3), &[]),
        ],
    )
}

#[test]
fn a_folder_has_64_leaves_at_most(rt: HostRuntime) -> Result<(), Fail> {
    let mut image = example();
    put_slot(&mut image, 0, Kind::Folder, 1, &ROOT, &[BlockNo(6); 64]);
    let mut card = open(on_device(rt.alloc(), &image)?).end();
    holds(
        &rt,
        rt.alloc(),
        &mut card,
        &[(
            Ask::Create(Kind::File, ROOT, b"alto"),
            Reply::Refused(15, Layer::File, 0),
            &[],
        )],
    )?;
    put_slot(&mut image, 0, Kind::Folder, 1, &ROOT, &[BlockNo(6); 63]);
    let mut card = open(on_device(rt.alloc(), &image)?).end();
    holds(
        &rt,
        rt.alloc(),
        &mut card,
        &[
            (
                Ask::Create(Kind::File, ROOT, b"alto"),
                Reply::At(handle(1, 5)),
                &[1, 2, 5],
            ),
            (Ask::Status(ROOT), Reply::Is(Kind::Folder, 64, ROOT), &[]),
        ],
    )
}
