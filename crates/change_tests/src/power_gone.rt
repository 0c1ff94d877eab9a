// The power goes in the middle of a call, or a sync cannot say what has landed.
use crate::table::{Ask, NEW, Reply, after_cut, holds, on_device};
use base::number::BlockNo;
use base::owner::Kind;
use base::refusal::Layer;
use card::opened::open;
use card::surveyed::Surveyed;
use card_tests::image::handle;
use format::format;
use power::ledger::{LastWrite, Ledger};
use std::alloc::Global;
use std::test::Fail;
use walk::path::ROOT;

// A new card that loses its power at the write after the next two.
fn short_of_power(heap: Global, last: LastWrite) -> Result<Surveyed<Ledger>, Fail> {
    let mut device = Ledger::new(heap, 8, 64)?;
    format(&mut device, 8, 3)?;
    device.set_fuse(Some(2));
    device.set_last(last);
    Ok(open(device).end())
}

#[test]
fn a_create_is_broken_off(rt: HostRuntime) -> Result<(), Fail> {
    let mut card = short_of_power(rt.alloc(), LastWrite::Lost)?;
    let gone = Reply::Refused(1, Layer::Device, 1);
    holds(
        &rt,
        rt.alloc(),
        &mut card,
        &[
            (Ask::Create(Kind::File, ROOT, b"alto"), gone, &[2, 4]),
            (Ask::Create(Kind::File, ROOT, b"bass"), gone, &[]),
            (Ask::Find(ROOT, b"alto"), gone, &[]),
            (
                Ask::Find(ROOT, b""),
                Reply::Refused(11, Layer::File, 0),
                &[],
            ),
            (
                Ask::Path(b"alto"),
                Reply::Stopped(1, Layer::Device, 1, 0),
                &[],
            ),
            (Ask::Space, gone, &[]),
            (Ask::Damage, gone, &[]),
            (Ask::Sync, gone, &[]),
        ],
    )?;
    let mut card = after_cut(card, &[NEW]);
    holds(
        &rt,
        rt.alloc(),
        &mut card,
        &[
            (
                Ask::Find(ROOT, b"alto"),
                Reply::Refused(9, Layer::File, 0),
                &[],
            ),
            (Ask::Space, Reply::Free(4, 2), &[]),
            (
                Ask::Create(Kind::File, ROOT, b"alto"),
                Reply::At(handle(1, 3)),
                &[1, 2, 4],
            ),
        ],
    )
}

#[test]
fn the_write_that_takes_the_power_may_stand(rt: HostRuntime) -> Result<(), Fail> {
    let mut card = short_of_power(rt.alloc(), LastWrite::MayStand)?;
    let gone = Reply::Refused(1, Layer::Device, 1);
    holds(
        &rt,
        rt.alloc(),
        &mut card,
        &[(Ask::Create(Kind::File, ROOT, b"alto"), gone, &[1, 2, 4])],
    )?;
    let mut card = after_cut(card, &[NEW]);
    holds(
        &rt,
        rt.alloc(),
        &mut card,
        &[
            (Ask::Path(b"alto"), Reply::At(handle(1, 2)), &[]),
            (Ask::Space, Reply::Free(3, 1), &[]),
            (Ask::Sync, Reply::Done, &[]),
        ],
    )
}

#[test]
fn a_sync_is_unsure(rt: HostRuntime) -> Result<(), Fail> {
    let mut device = Ledger::new(rt.alloc(), 8, 64)?;
    device.set_unsure(true);
    let refused = format(&mut device, 8, 3)
        .err()
        .map(|e| (e.number(), e.layer(), e.place()));
    assert_eq!(rt; refused, Some((2, Layer::Device, 65535)));
    assert!(rt;
        device
            .shown(BlockNo(0))
            .is_some_and(|b| b.starts_with(&[1, 1, 8, 0, 3, 0]))
    );
    let mut card = open(device).end();
    holds(
        &rt,
        rt.alloc(),
        &mut card,
        &[
            (Ask::Sync, Reply::Refused(2, Layer::Device, 65535), &[]),
            (
                Ask::Create(Kind::File, ROOT, b"alto"),
                Reply::At(handle(1, 2)),
                &[1, 2, 4],
            ),
            (Ask::Sync, Reply::Refused(2, Layer::Device, 65535), &[]),
        ],
    )?;
    let mut card = after_cut(card, &[0]);
    holds(
        &rt,
        rt.alloc(),
        &mut card,
        &[(Ask::Path(b""), Reply::Stopped(3, Layer::Card, 0, 0), &[])],
    )
}

#[test]
fn a_bad_card_answers_why(rt: HostRuntime) -> Result<(), Fail> {
    let mut card = open(on_device(rt.alloc(), &[0; 2048])?).end();
    let bad = Reply::Refused(3, Layer::Card, 0);
    holds(
        &rt,
        rt.alloc(),
        &mut card,
        &[
            (Ask::Create(Kind::File, ROOT, b"alto"), bad, &[]),
            (
                Ask::Create(Kind::File, ROOT, b"a/b"),
                Reply::Refused(11, Layer::File, 3),
                &[],
            ),
            (Ask::Write(ROOT, 0, b"x"), bad, &[]),
            (
                Ask::Write(ROOT, 0, &[1; 500]),
                Reply::Refused(12, Layer::File, 500),
                &[],
            ),
            (Ask::Shorten(ROOT, 0), bad, &[]),
            (Ask::Remove(ROOT, b"alto"), bad, &[]),
            (Ask::Sync, bad, &[]),
            (Ask::Space, bad, &[]),
        ],
    )
}
