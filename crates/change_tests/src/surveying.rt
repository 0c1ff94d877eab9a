// What a survey tells, step by step.
use base::number::{Identity, LeafNo};
use base::owner::Kind;
use base::refusal::Refusal;
use card::opened::{Opened, Surveying, open};
use card_tests::image::{example, handle, put_file, put_folder};
use device::plain::Plain;
use std::test::Fail;
use walk::path::ROOT;

fn told(step: Result<Surveying, Refusal>) -> Option<(u16, u32)> {
    let surveying = step.ok()?;
    Some((surveying.remain, surveying.highest.0))
}

// How many blocks remain and the highest identity, after each of blocks 1 to 11 and once more.
const STEPS: [(u16, u32); 12] = [
    (10, 1),
    (9, 2),
    (8, 3),
    (7, 4),
    (6, 4),
    (5, 4),
    (4, 4),
    (3, 4),
    (2, 4),
    (1, 99),
    (0, 120),
    (0, 120),
];

// The example with two bodies that nothing holds: a folder's whose entry tells 99, and a file's of owner 120.
fn with_traces() -> [u8; 6144] {
    let mut image = example();
    put_folder(&mut image, 10, handle(3, 50), b"gone", &handle(2, 99));
    put_file(&mut image, 11, handle(1, 120), 5, b"gone");
    image
}

#[test]
fn each_step_tells_what_remains(rt: HostRuntime) -> Result<(), Fail> {
    let mut image = with_traces();
    let mut card = open(Plain::new(&mut image));
    for (at, due) in STEPS.iter().enumerate() {
        assert_eq!(rt; told(card.step()), Some(*due), "step {at}");
    }
    Ok(())
}

#[test]
fn steps_do_not_change_what_the_end_gives(rt: HostRuntime) -> Result<(), Fail> {
    for many in 0..13 {
        let mut image = with_traces();
        let mut card = open(Plain::new(&mut image));
        for _ in 0..many {
            assert!(rt; card.step().is_ok());
        }
        let mut card = card.end();
        assert_eq!(rt; card.space().map(|s| (s.bodies, s.slots)), Ok((2, 0)));
        assert_eq!(rt; card.remove(&handle(2, 3), b"bass"), Ok(()));
        assert_eq!(rt;
            card.create(Kind::File, &ROOT, b"tenor"),
            Ok(handle(3, 121))
        );
        assert_eq!(rt; card.write(&handle(3, 121), LeafNo(0), b"x"), Ok(()));
        assert_eq!(rt; card.space().map(|s| (s.bodies, s.slots)), Ok((2, 0)));
    }
    Ok(())
}

#[test]
fn a_step_on_a_bad_card_is_refused(rt: HostRuntime) {
    let mut image = example();
    image[512] = 2;
    let mut card = open(Plain::new(&mut image));
    assert_eq!(rt;
        card.step().err().map(|e| (e.number(), e.place())),
        Some((3, 1))
    );
    assert_eq!(rt;
        card.end().space().err().map(|e| (e.number(), e.place())),
        Some((3, 1))
    );
}
