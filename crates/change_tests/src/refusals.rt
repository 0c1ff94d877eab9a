// What each changing call refuses, with number, layer and place.
use crate::table::{Ask, Reply, holds, new_card, on_device};
use base::number::BlockNo;
use base::owner::Kind;
use base::refusal::Layer;
use card::opened::open;
use card_tests::image::{example, handle, put_slot};
use std::test::Fail;
use walk::path::ROOT;

#[test]
fn handles_names_and_leaves(rt: HostRuntime) -> Result<(), Fail> {
    let (alto, mass) = (handle(1, 2), handle(2, 3));
    let mut card = open(on_device(rt.alloc(), &example())?).end();
    holds(
        &rt,
        rt.alloc(),
        &mut card,
        &[
            (
                Ask::Create(Kind::File, ROOT, b"mass"),
                Reply::Refused(10, Layer::File, 2),
                &[],
            ),
            (
                Ask::Create(Kind::File, alto, b"mass"),
                Reply::Refused(6, Layer::File, 1),
                &[],
            ),
            (
                Ask::Create(Kind::File, handle(1, 9), b"mass"),
                Reply::Refused(5, Layer::File, 1),
                &[],
            ),
            (
                Ask::Write(handle(9, 2), 0, b"x"),
                Reply::Refused(5, Layer::File, 9),
                &[],
            ),
            (
                Ask::Write(mass, 0, b"x"),
                Reply::Refused(6, Layer::File, 2),
                &[],
            ),
            (
                Ask::Write(alto, 3, b"x"),
                Reply::Refused(7, Layer::File, 3),
                &[],
            ),
            (
                Ask::Shorten(alto, 3),
                Reply::Refused(7, Layer::File, 3),
                &[],
            ),
            (
                Ask::Shorten(mass, 0),
                Reply::Refused(6, Layer::File, 2),
                &[],
            ),
            (Ask::Shorten(alto, 2), Reply::Done, &[]),
            (
                Ask::Remove(ROOT, b"tenor"),
                Reply::Refused(9, Layer::File, 0),
                &[],
            ),
            (
                Ask::Remove(mass, b"alto"),
                Reply::Refused(9, Layer::File, 2),
                &[],
            ),
            (
                Ask::Remove(alto, b"mass"),
                Reply::Refused(6, Layer::File, 1),
                &[],
            ),
            (
                Ask::Remove(ROOT, b"mass"),
                Reply::Refused(17, Layer::File, 2),
                &[],
            ),
        ],
    )
}

#[test]
fn a_file_that_was_removed_is_gone(rt: HostRuntime) -> Result<(), Fail> {
    let (mass, bass) = (handle(2, 3), handle(3, 4));
    let mut card = open(on_device(rt.alloc(), &example())?).end();
    holds(
        &rt,
        rt.alloc(),
        &mut card,
        &[
            (Ask::Space, Reply::Free(2, 0), &[]),
            (Ask::Remove(mass, b"bass"), Reply::Done, &[4, 8]),
            (Ask::Space, Reply::Free(3, 1), &[]),
            (
                Ask::Write(bass, 0, b"x"),
                Reply::Refused(5, Layer::File, 3),
                &[],
            ),
            (Ask::Read(bass, 0), Reply::Refused(5, Layer::File, 3), &[]),
            (Ask::Remove(ROOT, b"mass"), Reply::Done, &[3, 5]),
            (
                Ask::Create(Kind::File, mass, b"bass"),
                Reply::Refused(5, Layer::File, 2),
                &[],
            ),
            (Ask::Space, Reply::Free(4, 2), &[]),
            (
                Ask::Create(Kind::File, ROOT, b"bass"),
                Reply::At(handle(2, 5)),
                &[3, 5],
            ),
        ],
    )
}

#[test]
fn no_slot_and_no_body_is_free(rt: HostRuntime) -> Result<(), Fail> {
    let (mass, bass) = (handle(1, 2), handle(2, 3));
    let mut card = new_card(rt.alloc(), 7, 4)?;
    holds(
        &rt,
        rt.alloc(),
        &mut card,
        &[
            (
                Ask::Create(Kind::Folder, ROOT, b"mass"),
                Reply::At(mass),
                &[1, 2, 5],
            ),
            (
                Ask::Create(Kind::File, ROOT, b"bass"),
                Reply::At(bass),
                &[3, 5],
            ),
            (Ask::Write(bass, 0, b"x"), Reply::Done, &[3, 6]),
            (Ask::Space, Reply::Free(0, 1), &[]),
            (
                Ask::Write(bass, 1, b"x"),
                Reply::Refused(13, Layer::File, 2),
                &[],
            ),
            (
                Ask::Create(Kind::File, mass, b"alto"),
                Reply::Refused(13, Layer::File, 1),
                &[],
            ),
            (
                Ask::Create(Kind::File, ROOT, b"alto"),
                Reply::At(handle(3, 4)),
                &[4, 5],
            ),
            (
                Ask::Create(Kind::File, mass, b"tenor"),
                Reply::Refused(14, Layer::Card, 4),
                &[],
            ),
            (
                Ask::Create(Kind::File, mass, b""),
                Reply::Refused(11, Layer::File, 0),
                &[],
            ),
            (
                Ask::Create(Kind::File, ROOT, b"alto"),
                Reply::Refused(10, Layer::File, 3),
                &[],
            ),
        ],
    )
}

#[test]
fn the_last_identity_was_given(rt: HostRuntime) -> Result<(), Fail> {
    let mut image = example();
    put_slot(&mut image, 3, Kind::File, u32::MAX, &ROOT, &[]);
    let mut card = open(on_device(rt.alloc(), &image)?).end();
    let alto = handle(1, 2);
    holds(
        &rt,
        rt.alloc(),
        &mut card,
        &[
            (Ask::Space, Reply::Free(3, 1), &[]),
            (
                Ask::Create(Kind::File, ROOT, b"tenor"),
                Reply::Refused(16, Layer::Card, 0),
                &[],
            ),
            (
                Ask::Create(Kind::File, ROOT, b"alto"),
                Reply::Refused(10, Layer::File, 1),
                &[],
            ),
            (Ask::Write(alto, 2, b"x"), Reply::Done, &[2, 9]),
        ],
    )?;
    put_slot(&mut image, 3, Kind::File, u32::MAX - 1, &ROOT, &[]);
    let mut card = open(on_device(rt.alloc(), &image)?).end();
    holds(
        &rt,
        rt.alloc(),
        &mut card,
        &[(
            Ask::Create(Kind::File, ROOT, b"tenor"),
            Reply::At(handle(3, u32::MAX)),
            &[4, 5],
        )],
    )
}

#[test]
fn a_leaf_that_is_not_good(rt: HostRuntime) -> Result<(), Fail> {
    let mut image = example();
    let alto = handle(1, 2);
    put_slot(
        &mut image,
        1,
        Kind::File,
        2,
        &ROOT,
        &[BlockNo(6), BlockNo(9)],
    );
    let mut card = open(on_device(rt.alloc(), &image)?).end();
    holds(
        &rt,
        rt.alloc(),
        &mut card,
        &[
            (Ask::Damage, Reply::Bad(1), &[]),
            (
                Ask::Write(alto, 1, b"x"),
                Reply::Refused(8, Layer::File, 9),
                &[],
            ),
            (Ask::Read(alto, 1), Reply::Refused(8, Layer::File, 9), &[]),
            (Ask::Write(alto, 2, b"xyz"), Reply::Done, &[2, 7]),
            (Ask::Read(alto, 2), Reply::Leaf(3, *b"xyz"), &[]),
            (Ask::Shorten(alto, 1), Reply::Done, &[2]),
            (Ask::Damage, Reply::Bad(0), &[]),
            (Ask::Path(b"mass/bass"), Reply::At(handle(3, 4)), &[]),
            (Ask::Read(handle(3, 4), 0), Reply::Leaf(7, *b"San"), &[]),
        ],
    )
}
