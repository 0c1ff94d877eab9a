// The image below every layer: its blocks, as they lie there.
use script::command::Hex;

// A block of the image, if it has it.
pub fn block(image: &[u8], at: u16) -> Option<&[u8; 512]> {
    let (blocks, _) = image.as_chunks::<512>();
    blocks.get(at as usize)
}

// Gives a block of the image these bytes. None if the image does not have it.
pub fn set(image: &mut [u8], at: u16, content: &Hex) -> Option<()> {
    let start = 512 * at as usize;
    let block = image.get_mut(start..start + 512)?;
    for (place, byte) in block.iter_mut().enumerate() {
        *byte = content.byte(place);
    }
    Some(())
}
