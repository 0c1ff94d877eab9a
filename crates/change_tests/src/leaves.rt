// What is written is read back byte for byte, and nothing else of the buffer is touched.
use crate::table::{NEW, after_cut, new_card};
use base::number::LeafNo;
use base::owner::{Handle, Kind};
use card::readable::Readable;
use card::surveyed::Surveyed;
use card_tests::image::handle;
use power::ledger::Ledger;
use std::process::Abort;
use std::test::Fail;
use walk::path::ROOT;

const ALTO: (u16, u32) = (1, 2);

const LENGTHS: [usize; 4] = [0, 1, 495, 496];

// Bytes that count up, and sevens after them.
fn counting(length: usize) -> [u8; 600] {
    let mut all = [7; 600];
    for (at, byte) in all.iter_mut().enumerate().take(length) {
        *byte = (at % 251) as u8;
    }
    all
}

fn write_all(rt: &impl Abort, card: &mut Surveyed<Ledger>, file: &Handle) {
    for (leaf, length) in (0..4).zip(LENGTHS) {
        let all = counting(length);
        let bytes = all.get(0..length).unwrap_or(&all);
        assert_eq!(rt; card.write(file, LeafNo(leaf), bytes), Ok(()));
    }
}

fn read_all(rt: &impl Abort, card: &mut Surveyed<Ledger>, file: &Handle) {
    for (leaf, length) in (0..4).zip(LENGTHS) {
        let mut buffer = [7; 600];
        assert_eq!(rt; card.read(file, LeafNo(leaf), &mut buffer), Ok(length));
        assert!(rt; buffer == counting(length), "leaf {leaf}");
    }
}

#[test]
fn a_leaf_reads_back(rt: HostRuntime) -> Result<(), Fail> {
    let mut card = new_card(rt.alloc(), 12, 3)?;
    let alto = handle(ALTO.0, ALTO.1);
    assert_eq!(rt; card.create(Kind::File, &ROOT, b"alto"), Ok(alto));
    write_all(&rt, &mut card, &alto);
    read_all(&rt, &mut card, &alto);
    assert_eq!(rt; card.sync(), Ok(()));
    let mut card = after_cut(card, &[0]);
    read_all(&rt, &mut card, &alto);
    // Written again, and all of it lands though no sync was asked.
    assert_eq!(rt; card.shorten(&alto, LeafNo(0)), Ok(()));
    write_all(&rt, &mut card, &alto);
    let mut card = after_cut(card, &[NEW]);
    read_all(&rt, &mut card, &alto);
    Ok(())
}

// Number and place of the refusal of a read into sevens, all of which stay.
fn refused(
    rt: &impl Abort,
    card: &mut Surveyed<Ledger>,
    file: &Handle,
    leaf: u16,
    room: usize,
) -> Option<(u8, u64)> {
    let mut all = [7; 600];
    let (buffer, _) = all.split_at_mut(room.min(600));
    let answer = card.read(file, LeafNo(leaf), buffer);
    assert!(rt; all == [7; 600]);
    answer.err().map(|e| (e.number(), e.place()))
}

#[test]
fn a_refused_read_leaves_the_buffer(rt: HostRuntime) -> Result<(), Fail> {
    let mut card = new_card(rt.alloc(), 8, 3)?;
    let alto = handle(ALTO.0, ALTO.1);
    assert_eq!(rt; card.create(Kind::File, &ROOT, b"alto"), Ok(alto));
    assert_eq!(rt; card.write(&alto, LeafNo(0), b"ABC"), Ok(()));
    assert_eq!(rt; refused(&rt, &mut card, &alto, 0, 495), Some((12, 495)));
    assert_eq!(rt; refused(&rt, &mut card, &alto, 0, 0), Some((12, 0)));
    assert_eq!(rt; refused(&rt, &mut card, &alto, 1, 600), Some((7, 1)));
    assert_eq!(rt; refused(&rt, &mut card, &ROOT, 0, 600), Some((6, 0)));
    assert_eq!(rt;
        refused(&rt, &mut card, &handle(1, 3), 0, 600),
        Some((5, 1))
    );
    // All but the leaf's body land.
    let mut card = after_cut(card, &[NEW, NEW, NEW, NEW, NEW, 0, NEW, NEW]);
    assert_eq!(rt; refused(&rt, &mut card, &alto, 0, 600), Some((8, 5)));
    Ok(())
}
