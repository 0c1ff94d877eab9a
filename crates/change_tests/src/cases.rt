// The worked cases, on a card of 8 blocks and 3 slots.
use crate::table::{Ask, NEW, OLD, Reply, after_cut, begins, holds, new_card};
use base::number::{Identity, SlotNo};
use base::owner::{Handle, Kind};
use base::refusal::Layer;
use card::surveyed::Surveyed;
use power::ledger::Ledger;
use std::alloc::Global;
use std::process::Abort;
use std::test::Fail;
use walk::path::ROOT;

const ALTO: Handle = Handle {
    slot: SlotNo(1),
    identity: Identity(2),
};

const BASS: Handle = Handle {
    slot: SlotNo(2),
    identity: Identity(3),
};
// The handle of a create in alto's place, after alto.
const NEXT: Handle = Handle {
    slot: SlotNo(1),
    identity: Identity(3),
};

#[test]
fn a_new_card(rt: HostRuntime) -> Result<(), Fail> {
    let mut card = new_card(rt.alloc(), 8, 3)?;
    assert!(rt; begins(&card, 0, &[1, 1, 8, 0, 3, 0, 0, 0]));
    holds(
        &rt,
        rt.alloc(),
        &mut card,
        &[(Ask::Space, Reply::Free(4, 2), &[])],
    )
}

// A file alto with a first leaf.
fn with_alto(rt: &impl Abort, heap: Global) -> Result<Surveyed<Ledger>, Fail> {
    let mut card = new_card(heap, 8, 3)?;
    holds(
        rt,
        heap,
        &mut card,
        &[
            (
                Ask::Create(Kind::File, ROOT, b"alto"),
                Reply::At(ALTO),
                &[1, 2, 4],
            ),
            (Ask::Write(ALTO, 0, b"ABC"), Reply::Done, &[2, 5]),
        ],
    )?;
    Ok(card)
}

#[test]
fn b_and_c_a_file_and_its_first_leaf(rt: HostRuntime) -> Result<(), Fail> {
    let card = with_alto(&rt, rt.alloc())?;
    assert!(rt;
        begins(
            &card,
            5,
            &[
                4, 0, 1, 0, 2, 0, 0, 0, 0, 0, 3, 0, 0, 0, 0, 0, 65, 66, 67, 0
            ]
        )
    );
    assert!(rt;
        begins(
            &card,
            2,
            &[2, 0, 1, 0, 2, 0, 0, 0, 1, 0, 0, 0, 0, 0, 0, 0, 5, 0, 0, 0]
        )
    );
    assert!(rt;
        begins(
            &card,
            4,
            &[
                5, 0, 0, 0, 1, 0, 0, 0, 0, 0, 224, 1, 0, 0, 0, 0, 4, 0, 1, 0, 2, 0, 0, 0, 97, 108,
                116, 111, 0
            ]
        )
    );
    assert!(rt;
        begins(
            &card,
            1,
            &[3, 0, 1, 0, 1, 0, 0, 0, 1, 0, 0, 0, 0, 0, 0, 0, 4, 0, 0, 0]
        )
    );
    Ok(())
}

#[test]
fn d_only_the_leaf_lands(rt: HostRuntime) -> Result<(), Fail> {
    let card = with_alto(&rt, rt.alloc())?;
    let mut card = after_cut(card, &[OLD, OLD, OLD, OLD, OLD, NEW, OLD, OLD]);
    holds(
        &rt,
        rt.alloc(),
        &mut card,
        &[
            (
                Ask::Path(b"alto"),
                Reply::Stopped(9, Layer::File, 0, 0),
                &[],
            ),
            (Ask::Space, Reply::Free(4, 2), &[]),
            (
                Ask::Create(Kind::File, ROOT, b"bass"),
                Reply::At(NEXT),
                &[1, 2, 4],
            ),
        ],
    )
}

#[test]
fn e_all_but_the_leaf_land(rt: HostRuntime) -> Result<(), Fail> {
    let card = with_alto(&rt, rt.alloc())?;
    let mut card = after_cut(card, &[NEW, NEW, NEW, NEW, NEW, OLD, NEW, NEW]);
    holds(
        &rt,
        rt.alloc(),
        &mut card,
        &[
            (Ask::Path(b"alto"), Reply::At(ALTO), &[]),
            (Ask::Read(ALTO, 0), Reply::Refused(8, Layer::File, 5), &[]),
            (Ask::Space, Reply::Free(3, 1), &[]),
        ],
    )
}

#[test]
fn f_all_but_the_slot_land(rt: HostRuntime) -> Result<(), Fail> {
    let card = with_alto(&rt, rt.alloc())?;
    let mut card = after_cut(card, &[NEW, NEW, OLD, NEW, NEW, NEW, NEW, NEW]);
    holds(
        &rt,
        rt.alloc(),
        &mut card,
        &[
            (
                Ask::Path(b"alto"),
                Reply::Stopped(9, Layer::File, 0, 0),
                &[],
            ),
            (Ask::Space, Reply::Free(3, 2), &[]),
            (
                Ask::Create(Kind::File, ROOT, b"bass"),
                Reply::At(NEXT),
                &[2, 4],
            ),
        ],
    )
}

// Everything with alto has landed; then alto is shortened, and bass gets three leaves, the last of them in alto's old body.
fn with_bass(rt: &impl Abort, heap: Global) -> Result<Surveyed<Ledger>, Fail> {
    let mut card = with_alto(rt, heap)?;
    holds(
        rt,
        heap,
        &mut card,
        &[
            (
                Ask::Create(Kind::File, ROOT, b"bass"),
                Reply::At(BASS),
                &[3, 4],
            ),
            (Ask::Sync, Reply::Done, &[]),
            (Ask::Shorten(ALTO, 0), Reply::Done, &[2]),
            (Ask::Write(BASS, 0, b"DEF"), Reply::Done, &[3, 6]),
            (Ask::Write(BASS, 1, b"GHI"), Reply::Done, &[3, 7]),
            (Ask::Write(BASS, 2, b"JKL"), Reply::Done, &[3, 5]),
        ],
    )?;
    Ok(card)
}

#[test]
fn g_only_the_body_that_was_given_again_lands(rt: HostRuntime) -> Result<(), Fail> {
    let card = with_bass(&rt, rt.alloc())?;
    let mut card = after_cut(card, &[OLD, OLD, OLD, OLD, OLD, NEW, OLD, OLD]);
    holds(
        &rt,
        rt.alloc(),
        &mut card,
        &[
            (Ask::Path(b"alto"), Reply::At(ALTO), &[]),
            (Ask::Read(ALTO, 0), Reply::Refused(8, Layer::File, 5), &[]),
            (Ask::Path(b"bass"), Reply::At(BASS), &[]),
            (Ask::Status(BASS), Reply::Is(Kind::File, 0, ROOT), &[]),
            (Ask::Read(BASS, 0), Reply::Refused(7, Layer::File, 0), &[]),
            (Ask::Damage, Reply::Bad(1), &[]),
        ],
    )
}

#[test]
fn h_only_the_slot_of_bass_lands(rt: HostRuntime) -> Result<(), Fail> {
    let card = with_bass(&rt, rt.alloc())?;
    let mut card = after_cut(card, &[OLD, OLD, OLD, NEW, OLD, OLD, OLD, OLD]);
    holds(
        &rt,
        rt.alloc(),
        &mut card,
        &[
            (Ask::Path(b"alto"), Reply::At(ALTO), &[]),
            (Ask::Read(ALTO, 0), Reply::Leaf(3, *b"ABC"), &[]),
            (Ask::Path(b"bass"), Reply::At(BASS), &[]),
            (Ask::Read(BASS, 0), Reply::Refused(8, Layer::File, 6), &[]),
            (Ask::Read(BASS, 1), Reply::Refused(8, Layer::File, 7), &[]),
            (Ask::Read(BASS, 2), Reply::Refused(8, Layer::File, 5), &[]),
            (Ask::Damage, Reply::Bad(3), &[]),
            (Ask::Remove(ROOT, b"bass"), Reply::Done, &[3, 4]),
            (Ask::Space, Reply::Free(2, 1), &[]),
        ],
    )
}

#[test]
fn i_no_body_is_free(rt: HostRuntime) -> Result<(), Fail> {
    let mut card = with_bass(&rt, rt.alloc())?;
    holds(
        &rt,
        rt.alloc(),
        &mut card,
        &[
            (Ask::Space, Reply::Free(0, 0), &[]),
            (
                Ask::Write(BASS, 3, b"MNO"),
                Reply::Refused(13, Layer::File, 2),
                &[],
            ),
            (Ask::Read(BASS, 2), Reply::Leaf(3, *b"JKL"), &[]),
        ],
    )
}
