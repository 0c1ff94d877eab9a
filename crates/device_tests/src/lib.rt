// Examples of the cards, run.
#![tactic(auto)]

use base::number::BlockNo;
use buffered::buffered::Buffered;
use device::Device;
use device::effect::write_all;
use device::failing::Failing;
use device::fault::Fault;
use device::plain::Plain;
use device::put::Put;

// What a card of three blocks answers to writes at 0, 3 and 2, where it loses power after `writes` writes.
pub fn three(writes: u32) -> [Result<(), Fault>; 3] {
    let mut image = [0u8; 1600];
    let mut card = Failing::new(Plain::new(&mut image), writes);
    let bytes = [7u8; 512];
    let a = card.write(BlockNo(0), &bytes);
    let b = card.write(BlockNo(3), &bytes);
    let c = card.write(BlockNo(2), &bytes);
    [a, b, c]
}

// The first byte of each of the first N blocks of an image.
fn first_bytes<const N: usize>(image: &[u8]) -> [u8; N] {
    let mut first = [0u8; N];
    for (byte, block) in first.iter_mut().zip(image.chunks_exact(512)) {
        *byte = block[0];
    }
    first
}

// The first byte of each block below, after nine writes to a buffered card in the given order; the n-th writes byte n.
pub fn below_after(order: [u16; 9], sync: bool) -> [u8; 12] {
    let mut image = [0u8; 6144];
    {
        let mut card = Buffered::new(Plain::new(&mut image));
        for (n, b) in (1u8..=9).zip(order) {
            let _ = card.write(BlockNo(b), &[n; 512]);
        }
        if sync {
            let _ = card.sync();
        }
    }
    first_bytes(&image)
}

// The first bytes of a card of four blocks once blocks 1 and 3 were to be written as one, and what was answered.
pub fn pair(writes: u32, second: u16) -> (Result<(), Fault>, [u8; 4]) {
    let mut image = [0u8; 2048];
    let puts = [
        Put {
            block: BlockNo(1),
            bytes: [1; 512],
        },
        Put {
            block: BlockNo(second),
            bytes: [3; 512],
        },
    ];
    let answer = {
        let mut card = Failing::new(Plain::new(&mut image), writes);
        write_all(&mut card, &puts)
    };
    (answer, first_bytes(&image))
}

#[cfg(test)]
mod tests {
    use super::*;
    use device::fault::Synced;

    #[test]
    fn the_failing_card_counts_accepted_writes(rt: HostRuntime) {
        let [a, b, c] = three(2);
        assert_eq!(rt; a, Ok(()));
        assert_eq!(rt; b, Err(Fault::NoSuchBlock(BlockNo(3))));
        assert_eq!(rt; c, Ok(()));
        let [_, b, c] = three(1);
        assert_eq!(rt; b, Err(Fault::PowerGone(BlockNo(3))));
        assert_eq!(rt; c, Err(Fault::PowerGone(BlockNo(2))));
    }

    #[test]
    fn a_ninth_block_sends_the_highest_waiting_one_down(rt: HostRuntime) {
        let none = below_after([3, 1, 7, 0, 5, 2, 6, 4, 3], false);
        assert_eq!(rt; none, [0; 12]);
        let seven = below_after([3, 1, 7, 0, 5, 2, 6, 4, 11], false);
        assert_eq!(rt; seven, [0, 0, 0, 0, 0, 0, 0, 3, 0, 0, 0, 0]);
        let all = below_after([3, 1, 7, 0, 5, 2, 6, 4, 11], true);
        assert_eq!(rt; all, [4, 2, 6, 1, 8, 5, 7, 3, 0, 0, 0, 9]);
    }

    #[test]
    fn several_blocks_are_written_as_one(rt: HostRuntime) {
        let (answer, shown) = pair(2, 3);
        assert_eq!(rt; answer, Ok(()));
        assert_eq!(rt; shown, [0, 1, 0, 3]);
        let (answer, shown) = pair(1, 3);
        assert_eq!(rt; answer, Err(Fault::PowerGone(BlockNo(3))));
        assert_eq!(rt; shown, [0, 1, 0, 0]);
        let (answer, shown) = pair(2, 4);
        assert_eq!(rt; answer, Err(Fault::NoSuchBlock(BlockNo(4))));
        assert_eq!(rt; shown, [0, 0, 0, 0]);
    }

    #[test]
    fn power_once_gone_stays_gone(rt: HostRuntime) {
        let mut image = [0u8; 2048];
        let mut card = Buffered::new(Failing::new(Plain::new(&mut image), 1));
        assert_eq!(rt; card.write(BlockNo(2), &[2; 512]), Ok(()));
        assert_eq!(rt; card.write(BlockNo(1), &[1; 512]), Ok(()));
        assert_eq!(rt; card.sync(), Err(Fault::PowerGone(BlockNo(65535))));
        assert_eq!(rt;
            card.write(BlockNo(1), &[1; 512]),
            Err(Fault::PowerGone(BlockNo(1)))
        );
        assert_eq!(rt;
            card.write(BlockNo(9), &[1; 512]),
            Err(Fault::PowerGone(BlockNo(9)))
        );
        assert!(rt; card.read(BlockNo(1)).is_err());
        assert_eq!(rt; card.sync(), Err(Fault::PowerGone(BlockNo(65535))));
    }

    #[test]
    fn a_plain_card_ignores_a_broken_last_block(rt: HostRuntime) {
        let mut image = [0u8; 1023];
        {
            let mut card = Plain::new(&mut image);
            assert_eq!(rt; card.count(), 1);
            assert_eq!(rt;
                card.write(BlockNo(1), &[1; 512]),
                Err(Fault::NoSuchBlock(BlockNo(1)))
            );
            assert_eq!(rt; card.write(BlockNo(0), &[1; 512]), Ok(()));
            assert_eq!(rt; card.sync(), Ok(Synced::Settled));
        }
        assert_eq!(rt; image[511], 1);
        assert_eq!(rt; image[512], 0);
    }
}
