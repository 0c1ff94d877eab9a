// Each refusal of a reading call with its place, and which is told first; lines and buffers stay as they were.
use crate::answers::{OLD_DAMAGE, OLD_ENTRY, damaged};
use crate::fading::Fading;
use crate::image::{example, handle};
use base::number::{BlockNo, LeafNo, SlotNo};
use base::owner::Handle;
use base::refusal::{PathRefusal, Refusal};
use card::opened::open;
use card::readable::Readable;
use device::plain::Plain;
use listing::line::{NO_DAMAGE, NO_ENTRY};
use walk::path::ROOT;

#[test]
fn of_a_find(rt: HostRuntime) {
    let mut image = example();
    let mut card = open(Plain::new(&mut image));
    let none = handle(2, 4);
    let alto = handle(1, 2);
    assert_eq!(rt; card.find(&none, b"a\0"), Err(Refusal::BadName(2)));
    assert_eq!(rt; card.find(&none, &[b'a'; 25]), Err(Refusal::BadName(25)));
    assert_eq!(rt;
        card.find(&none, b"bass"),
        Err(Refusal::NoSuchHandle(SlotNo(2)))
    );
    assert_eq!(rt;
        card.find(&alto, b"bass"),
        Err(Refusal::WrongKind(SlotNo(1)))
    );
    assert_eq!(rt;
        card.find(&handle(2, 3), b"alto"),
        Err(Refusal::NoSuchName(SlotNo(2)))
    );
    assert_eq!(rt;
        card.find(&ROOT, &[b'a'; 24]),
        Err(Refusal::NoSuchName(SlotNo(0)))
    );
}

fn at<A>(component: usize, lower: Refusal) -> Result<A, PathRefusal> {
    Err(PathRefusal { lower, component })
}

#[test]
fn of_a_path(rt: HostRuntime) {
    let mut image = example();
    let mut card = open(Plain::new(&mut image));
    assert_eq!(rt; card.path(b"tenor//x"), at(1, Refusal::BadName(0)));
    assert_eq!(rt; card.path(b"/"), at(0, Refusal::BadName(0)));
    assert_eq!(rt; card.path(b"mass/"), at(1, Refusal::BadName(0)));
    assert_eq!(rt;
        card.path(b"alto/bass"),
        at(1, Refusal::WrongKind(SlotNo(1)))
    );
    assert_eq!(rt;
        card.path(b"tenor/bass"),
        at(0, Refusal::NoSuchName(SlotNo(0)))
    );
    assert_eq!(rt;
        card.path(b"mass/tenor"),
        at(1, Refusal::NoSuchName(SlotNo(2)))
    );
    assert_eq!(rt;
        card.path(b"mass/bass/x"),
        at(2, Refusal::WrongKind(SlotNo(3)))
    );
}

#[test]
fn of_a_list_and_a_status(rt: HostRuntime) {
    let mut image = example();
    let mut card = open(Plain::new(&mut image));
    let mut lines = [OLD_ENTRY; 2];
    let unfit = Refusal::NoSuchHandle(SlotNo(9));
    assert_eq!(rt; card.list(&handle(9, 1), &mut lines), Err(unfit));
    assert_eq!(rt;
        card.list(&handle(1, 2), &mut lines),
        Err(Refusal::WrongKind(SlotNo(1)))
    );
    assert_eq!(rt; lines, [OLD_ENTRY; 2]);
    assert_eq!(rt; card.status(&handle(9, 1)).err(), Some(unfit));
    assert_eq!(rt;
        card.status(&handle(1, 3)).err(),
        Some(Refusal::NoSuchHandle(SlotNo(1)))
    );
}

// The refusal of a read into a buffer of 496 sevens; none if the buffer is not as it was.
fn unread<C: Readable>(card: &mut C, file: &Handle, leaf: u16) -> Option<Refusal> {
    let mut buffer = [7u8; 496];
    let refusal = card.read(file, LeafNo(leaf), &mut buffer).err()?;
    (buffer == [7u8; 496]).then_some(refusal)
}

#[test]
fn of_a_read(rt: HostRuntime) {
    let mut image = damaged();
    let mut card = open(Plain::new(&mut image));
    let mut small = [7u8; 495];
    assert_eq!(rt;
        card.read(&handle(9, 1), LeafNo(9), &mut small),
        Err(Refusal::BadLength(495))
    );
    assert_eq!(rt; small, [7u8; 495]);
    assert_eq!(rt;
        unread(&mut card, &handle(2, 2), 9),
        Some(Refusal::NoSuchHandle(SlotNo(2)))
    );
    assert_eq!(rt;
        unread(&mut card, &handle(2, 3), 9),
        Some(Refusal::WrongKind(SlotNo(2)))
    );
    assert_eq!(rt;
        unread(&mut card, &handle(1, 2), 2),
        Some(Refusal::NoSuchLeaf(LeafNo(2)))
    );
    assert_eq!(rt;
        unread(&mut card, &handle(1, 2), 65535),
        Some(Refusal::NoSuchLeaf(LeafNo(65535)))
    );
    assert_eq!(rt;
        unread(&mut card, &handle(1, 2), 1),
        Some(Refusal::LeafNotGood(BlockNo(7)))
    );
}

#[test]
fn a_bad_card_leaves_lines_and_buffer(rt: HostRuntime) {
    let mut image = example();
    image[0] = 2;
    let mut card = open(Plain::new(&mut image));
    let mut entries = [OLD_ENTRY; 2];
    let mut damage = [OLD_DAMAGE; 2];
    let bad = Refusal::BadCard(BlockNo(0));
    assert_eq!(rt; card.list(&ROOT, &mut entries), Err(bad));
    assert_eq!(rt; entries, [OLD_ENTRY; 2]);
    assert_eq!(rt; card.damage(&mut damage), Err(bad));
    assert_eq!(rt; damage, [OLD_DAMAGE; 2]);
    assert_eq!(rt; unread(&mut card, &handle(1, 2), 0), Some(bad));
}

// A list of the root reads four blocks, after the two of open.
#[test]
fn power_gone_makes_the_lines_of_a_list_zero(rt: HostRuntime) {
    for (reads, block) in (2..6u32).zip([1, 5, 2, 3]) {
        let mut image = example();
        let mut card = open(Fading::new(Plain::new(&mut image), reads));
        let gone = Refusal::PowerGone(BlockNo(block));
        for _ in 0..2 {
            let mut lines = [OLD_ENTRY; 3];
            assert_eq!(rt; card.list(&ROOT, &mut lines), Err(gone));
            assert_eq!(rt; lines, [NO_ENTRY; 3]);
        }
        assert_eq!(rt; unread(&mut card, &handle(1, 2), 0), Some(gone));
    }
}

#[test]
fn power_gone_makes_the_lines_of_damage_zero(rt: HostRuntime) {
    // Kept: as many reads as docs/COSTS.md has for damage on this card.
    for reads in 2..20u32 {
        let mut image = damaged();
        let mut card = open(Fading::new(Plain::new(&mut image), reads));
        let mut first = [OLD_DAMAGE; 3];
        let answer = card.damage(&mut first);
        assert!(rt; matches!(answer, Err(Refusal::PowerGone(_))));
        assert_eq!(rt; first, [NO_DAMAGE; 3]);
        let mut again = [OLD_DAMAGE; 3];
        assert_eq!(rt; card.damage(&mut again), answer);
        assert_eq!(rt; again, [NO_DAMAGE; 3]);
    }
}

// A read takes the file's slot, then the body.
#[test]
fn power_gone_leaves_the_buffer_of_a_read(rt: HostRuntime) {
    for (reads, block) in (2..4u32).zip([2, 6]) {
        let mut image = example();
        let mut card = open(Fading::new(Plain::new(&mut image), reads));
        let gone = Some(Refusal::PowerGone(BlockNo(block)));
        assert_eq!(rt; unread(&mut card, &handle(1, 2), 0), gone);
        assert_eq!(rt; unread(&mut card, &handle(1, 2), 0), gone);
    }
}
