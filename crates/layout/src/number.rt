// Numbers on the card, low byte first.
ghost use Rattle.std.specs.Prelude.{◌≡◌};
ghost use Rattle.layout.specs.Format.{le16, le32};

// Kept: each names the format's definition for its width, le16 or le32; a trait with two impls would be longer.
pub fn number16(bytes: [u8; 2]) -> u16
    ensures { result ≡ le16 bytes 0 }
{
    u16::from_le_bytes(bytes)
}

pub fn number32(bytes: [u8; 4]) -> u32
    ensures { result ≡ le32 bytes 0 }
{
    u32::from_le_bytes(bytes)
}
