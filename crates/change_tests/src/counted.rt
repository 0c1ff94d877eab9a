// Exactly what each changing call reads and writes: docs/COSTS.md has the table.
use crate::table::{Ask, answer, on_device};
use base::owner::{Handle, Kind};
use card::opened::open;
use card::surveyed::Surveyed;
use card_tests::counting::{Counting, Tally};
use card_tests::image::{example, handle};
use format::format;
use power::ledger::Ledger;
use std::process::Abort;
use std::test::Fail;
use walk::path::ROOT;

// What is asked, and how many blocks it reads, how many it writes, and how many syncs it asks for.
type Row<'a> = (Ask<'a>, [u32; 3]);

fn counts(tally: Tally) -> [u32; 3] {
    [tally.reads, tally.writes, tally.syncs]
}

fn cost(rt: &impl Abort, card: &mut Surveyed<Counting<Ledger>>, rows: &[Row]) {
    for (at, (ask, due)) in rows.iter().enumerate() {
        let before = card.device().tally;
        let _ = answer(card, ask);
        let taken = card.device().tally.since(&before);
        assert_eq!(rt; counts(taken), *due, "row {at}");
    }
}

#[test]
fn format_and_the_survey(rt: HostRuntime) -> Result<(), Fail> {
    let mut device = Counting::new(Ledger::new(rt.alloc(), 12, 32)?);
    format(&mut device, 12, 4)?;
    assert_eq!(rt; counts(device.tally), [0, 12, 1]);
    let mut card = open(Counting::new(on_device(rt.alloc(), &example())?));
    assert_eq!(rt; counts(card.device().tally), [2, 0, 0]);
    assert!(rt; card.step().is_ok());
    assert_eq!(rt; counts(card.device().tally), [3, 0, 0]);
    let card = card.end();
    assert_eq!(rt; counts(card.device().tally), [13, 0, 0]);
    assert!(rt; card.space().is_ok());
    assert_eq!(rt; counts(card.device().tally), [13, 0, 0]);
    Ok(())
}

#[test]
fn a_step_after_the_last_reads_nothing(rt: HostRuntime) -> Result<(), Fail> {
    let mut card = open(Counting::new(on_device(rt.alloc(), &example())?));
    for _ in 0..13 {
        assert!(rt; card.step().is_ok());
    }
    assert_eq!(rt; counts(card.device().tally), [13, 0, 0]);
    assert_eq!(rt; counts(card.end().device().tally), [13, 0, 0]);
    Ok(())
}

const BASS: &[u8] = b"bass";

#[test]
fn files(rt: HostRuntime) -> Result<(), Fail> {
    let mut card = open(Counting::new(on_device(rt.alloc(), &example())?)).end();
    let alto = handle(1, 2);
    cost(
        &rt,
        &mut card,
        &[
            (Ask::Write(alto, 2, b"x"), [1, 2, 0]),
            (Ask::Write(alto, 1, b"x"), [1, 1, 0]),
            (Ask::Write(alto, 4, b"x"), [1, 0, 0]),
            (Ask::Write(alto, 1, &[0; 497]), [0, 0, 0]),
            (Ask::Write(handle(9, 2), 1, b"x"), [0, 0, 0]),
            (Ask::Shorten(alto, 3), [1, 0, 0]),
            (Ask::Shorten(alto, 1), [1, 1, 0]),
            (Ask::Sync, [0, 0, 1]),
            (Ask::Space, [0, 0, 0]),
        ],
    );
    Ok(())
}

#[test]
fn folders(rt: HostRuntime) -> Result<(), Fail> {
    let mut card = open(Counting::new(on_device(rt.alloc(), &example())?)).end();
    let mass = handle(2, 3);
    let loft: Handle = handle(3, 5);
    cost(
        &rt,
        &mut card,
        &[
            (Ask::Create(Kind::File, ROOT, b"a/b"), [0, 0, 0]),
            (Ask::Create(Kind::File, ROOT, b"mass"), [2, 0, 0]),
            (Ask::Create(Kind::File, ROOT, b"loft"), [2, 0, 0]),
            (Ask::Remove(ROOT, b"mass"), [4, 0, 0]),
            (Ask::Remove(mass, BASS), [3, 2, 0]),
            (Ask::Create(Kind::Folder, mass, b"loft"), [2, 2, 0]),
            (Ask::Remove(ROOT, b"alto"), [3, 2, 0]),
            (Ask::Create(Kind::File, loft, BASS), [1, 3, 0]),
            (Ask::Remove(loft, b"alto"), [2, 0, 0]),
            (Ask::Remove(loft, BASS), [3, 2, 0]),
            (Ask::Remove(mass, b"loft"), [4, 2, 0]),
        ],
    );
    Ok(())
}
