// Images that no card of ours would have: every call answers or refuses, and leaves each byte.
use crate::calls::{Numbers, refusals};
use crate::image::{SIZE, example, handle, put, put_entry, put_folder, put_slot};
use base::number::BlockNo;
use base::owner::{Handle, Kind};
use std::test::Fail;

// The refusals of the calls, once the image is seen to be as it was.
fn asked(image: &mut [u8; SIZE], name: &[u8], path: &[u8], h: &Handle) -> Result<Numbers, Fail> {
    let before = *image;
    let answers = refusals(image, name, path, h);
    if *image != before {
        return Err(Fail::new("the image was changed"));
    }
    Ok(answers)
}

#[test]
fn folders_in_a_cycle_are_not_reached(rt: HostRuntime) -> Result<(), Fail> {
    let mut image = example();
    let mass = handle(2, 3);
    let loft = handle(3, 4);
    put_slot(&mut image, 2, Kind::Folder, 3, &loft, &[BlockNo(8)]);
    put_slot(&mut image, 3, Kind::Folder, 4, &mass, &[BlockNo(9)]);
    put_folder(&mut image, 8, mass, b"loft", &loft);
    put_folder(&mut image, 9, loft, b"mass", &mass);
    assert_eq!(rt;
        asked(&mut image, b"mass", b"mass/loft", &mass)?,
        [Some(9), Some(9), None, None, None, Some(6)]
    );
    Ok(())
}

#[test]
fn a_folder_in_itself_and_an_entry_for_the_root(rt: HostRuntime) -> Result<(), Fail> {
    let mut image = example();
    let mass = handle(2, 3);
    put_slot(&mut image, 2, Kind::Folder, 3, &mass, &[BlockNo(8)]);
    put_folder(&mut image, 8, mass, b"mass", &mass);
    put_entry(&mut image, 5, 2, b"root", &handle(0, 1));
    assert_eq!(rt;
        asked(&mut image, b"mass", b"mass/mass", &mass)?,
        [Some(9), Some(9), None, None, None, Some(6)]
    );
    assert_eq!(rt;
        asked(&mut image, b"root", b"root/alto", &handle(0, 1))?,
        [Some(9), Some(9), None, None, None, Some(6)]
    );
    Ok(())
}

// The example, where alto's only leaf has this number.
fn with_number(number: u16) -> [u8; SIZE] {
    let mut image = example();
    put_slot(
        &mut image,
        1,
        Kind::File,
        2,
        &handle(0, 1),
        &[BlockNo(number)],
    );
    image
}

#[test]
fn numbers_out_of_range_make_a_slot_ill_formed(rt: HostRuntime) -> Result<(), Fail> {
    for number in [0u16, 4, 12, 65535] {
        let mut image = with_number(number);
        assert_eq!(rt;
            asked(&mut image, b"alto", b"alto", &handle(1, 2))?,
            [Some(9), Some(9), Some(5), Some(5), None, Some(5)]
        );
    }
    assert_eq!(rt;
        asked(&mut example(), b"mass", b"mass/bass", &handle(65535, 4))?,
        [None, None, Some(5), Some(5), None, Some(5)]
    );
    Ok(())
}

#[test]
fn any_one_byte_may_be_another(rt: HostRuntime) -> Result<(), Fail> {
    let mut image = example();
    // Kept: the whole image is read between the two writes of one byte, so that no iterator can hold it.
    for at in 0..SIZE {
        let was = image[at];
        image[at] = was ^ 255;
        let _ = asked(&mut image, b"mass", b"mass/bass", &handle(3, 4))?;
        image[at] = was;
    }
    assert!(rt; image == example());
    Ok(())
}

// The next of a row of numbers that look random.
fn stir(x: u32) -> u32 {
    let a = x ^ (x << 13);
    let b = a ^ (a >> 17);
    b ^ (b << 5)
}

// Fills the image from a place on, and answers the seed for the next.
fn scramble(image: &mut [u8; SIZE], from: usize, seed: u32) -> u32 {
    let mut x = seed;
    for byte in image.iter_mut().skip(from) {
        x = stir(x);
        *byte = (x % 256) as u8;
    }
    x
}

#[test]
fn random_blocks_are_refused_or_read(rt: HostRuntime) -> Result<(), Fail> {
    let good = example();
    let mut image = good;
    let mut seed = 2463534242;
    for _ in 0..64 {
        seed = scramble(&mut image, 0, seed);
        let _ = asked(&mut image, b"mass", b"mass/bass", &handle(0, 1))?;
        seed = scramble(&mut image, 1024, seed);
        put(&mut image, 0, &good[0..1024]);
        let answers = asked(&mut image, b"mass", b"mass/bass", &handle(0, 1))?;
        assert_eq!(rt; answers, [Some(9), Some(9), None, None, None, Some(6)]);
    }
    Ok(())
}
