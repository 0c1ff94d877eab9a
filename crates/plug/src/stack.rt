// A stack of cards is written to and loses its power; then the blocks below are looked at, one by one.
use crate::blocks::filling;
use base::number::BlockNo;
use buffered::buffered::Buffered;
use device::Device;
use device::failing::Failing;
use device::plain::Plain;

const BLOCKS: usize = 12;

// The blocks that are written before the sync, and those after it.
const FIRST: [u16; 3] = [2, 0, 1];

const SECOND: [u16; 10] = [3, 4, 5, 6, 7, 8, 9, 10, 11, 0];

// Writes after which the power goes.
const PASSES: u32 = 12;

// Fills each block with its number plus `base`, and says what was answered.
fn write_each<D: Device>(
    rt: &HostRuntime,
    card: &mut D,
    numbers: &[u16],
    base: u8,
) -> anyhow::Result<()> {
    for n in numbers {
        let byte = base.wrapping_add((*n & 0xff) as u8);
        print!(rt; "write block {n}, filled with {byte}: ")?;
        match card.write(BlockNo(*n), &[byte; 512]) {
            Ok(()) => println!(rt; "accepted")?,
            Err(fault) => println!(rt; "{fault}")?,
        }
    }
    Ok(())
}

fn sync_and_say<D: Device>(rt: &HostRuntime, card: &mut D) -> anyhow::Result<()> {
    match card.sync() {
        Ok(answer) => println!(rt; "sync: {answer}")?,
        Err(fault) => println!(rt; "sync: {fault}")?,
    }
    Ok(())
}

// Prints what each block of the image holds.
fn look_below(rt: &HostRuntime, image: &mut [u8]) -> anyhow::Result<()> {
    let mut card = Plain::new(image);
    for n in 0..card.count() {
        match card.read(BlockNo(n)) {
            Ok(bytes) => match filling(&bytes) {
                Some(byte) => println!(rt; "block {n}: filled with {byte}")?,
                None => println!(rt; "block {n}: mixed")?,
            },
            Err(_) => println!(rt; "block {n}: not to be read")?,
        }
    }
    Ok(())
}

// The whole story: a failing card over a buffered one over a plain one.
pub fn pull(rt: &HostRuntime) -> anyhow::Result<()> {
    let mut image = [0u8; 512 * BLOCKS];
    {
        let mut card = Failing::new(Buffered::new(Plain::new(&mut image)), PASSES);
        write_each(rt, &mut card, &FIRST, 10)?;
        sync_and_say(rt, &mut card)?;
        write_each(rt, &mut card, &SECOND, 100)?;
        sync_and_say(rt, &mut card)?;
    }
    println!(rt; "below, after the power is back:")?;
    look_below(rt, &mut image)
}
