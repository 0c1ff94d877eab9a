// What a card answers that was found bad when it was opened, or met power gone then or later.
use crate::fading::Fading;
use crate::image::{SIZE, example};
use crate::told::{Told, ask};
use base::number::{BlockNo, LeafNo};
use base::refusal::{PathRefusal, Refusal};
use card::opened::open;
use card::readable::Readable;
use device::plain::Plain;
use walk::path::ROOT;

// What the calls of a card tell, a step of its survey, and the calls of the card once it is surveyed.
type All = (Told, Option<Refusal>, Told);

fn told(image: &mut [u8]) -> All {
    let mut card = open(Plain::new(image));
    let opened = ask(&mut card);
    let step = card.step().err();
    (opened, step, ask(&mut card.end()))
}

// The same of the first bytes of an image.
fn told_front(image: &mut [u8], bytes: usize) -> All {
    let there = image.len().min(bytes);
    told(&mut image[..there])
}

fn always(refusal: Refusal) -> All {
    let each = Told::each(refusal);
    (each, Some(refusal), each)
}

// The example with another first byte in its cover, and with another kind of root.
fn example_with(cover: u8, root: u8) -> [u8; SIZE] {
    let mut image = example();
    image[0] = cover;
    image[512] = root;
    image
}

#[test]
fn each_call_tells_why_a_card_is_bad(rt: HostRuntime) {
    assert_eq!(rt; told(&mut example()), (Told::NOTHING, None, Told::NOTHING));
    let no_cover = always(Refusal::BadCard(BlockNo(0)));
    assert_eq!(rt; told(&mut []), no_cover);
    assert_eq!(rt; told_front(&mut example(), 511), no_cover);
    assert_eq!(rt; told(&mut example_with(2, 3)), no_cover);
    assert_eq!(rt;
        told_front(&mut example(), SIZE - 1),
        always(Refusal::SmallDevice(12))
    );
    assert_eq!(rt;
        told(&mut example_with(1, 2)),
        always(Refusal::BadCard(BlockNo(1)))
    );
}

#[test]
fn the_cover_then_the_size_then_the_root(rt: HostRuntime) {
    assert_eq!(rt;
        told_front(&mut example_with(2, 2), 512),
        always(Refusal::BadCard(BlockNo(0)))
    );
    assert_eq!(rt;
        told_front(&mut example_with(1, 2), 1024),
        always(Refusal::SmallDevice(12))
    );
}

#[test]
fn power_gone_in_open_is_told_by_each_call(rt: HostRuntime) {
    for reads in 0..2u16 {
        let mut image = example();
        let mut card = open(Fading::new(Plain::new(&mut image), reads as u32));
        let gone = Told::each(Refusal::PowerGone(BlockNo(reads)));
        assert_eq!(rt; ask(&mut card), gone);
        assert_eq!(rt; ask(&mut card), gone);
    }
}

#[test]
fn power_gone_once_met_is_told_ever_after(rt: HostRuntime) {
    let mut image = example();
    let mut card = open(Fading::new(Plain::new(&mut image), 3));
    let gone = Refusal::PowerGone(BlockNo(5));
    assert_eq!(rt;
        card.path(b"alto"),
        Err(PathRefusal {
            lower: gone,
            component: 0
        })
    );
    assert_eq!(rt; ask(&mut card), Told::each(gone));
    let mut surveyed = card.end();
    assert_eq!(rt; ask(&mut surveyed), Told::each(gone));
    assert_eq!(rt; surveyed.space().err(), Some(gone));
}

// A bad name and too small a buffer are told first, whatever the card is.
#[test]
fn what_is_asked_is_looked_at_before_the_card(rt: HostRuntime) {
    let mut image = example_with(2, 3);
    let mut card = open(Fading::new(Plain::new(&mut image), 0));
    let mut buffer = [7u8; 495];
    assert_eq!(rt; card.find(&ROOT, b"a/b"), Err(Refusal::BadName(3)));
    assert_eq!(rt;
        card.path(b"mass//bass"),
        Err(PathRefusal {
            lower: Refusal::BadName(0),
            component: 1,
        })
    );
    assert_eq!(rt;
        card.read(&ROOT, LeafNo(0), &mut buffer),
        Err(Refusal::BadLength(495))
    );
}
