// The copy of a leaf, taken out of its block before the next is read.
ghost use Rattle.std.specs.Prelude.{◌≡◌, ◌≤◌, length};

// What follows the head of a good leaf's body. Bytes past the used ones are 0.
// Kept: a copy is Copy, which an ArrayVec is not, and of a folder's leaf all 480 bytes are read whatever was used.
#[derive(Clone, Copy, PartialEq, Eq, Debug)]
pub struct LeafCopy {
    bytes: [u8; 496],
    used: u16,
    ghost within: { used ≤ 496 },
}

impl LeafCopy {
    ghost use Rattle.layout.specs.Head.{cells};
    ghost use Rattle.walk.specs.Copies.{front, folder_bytes};

    pub(crate) fn new(payload: &[u8]) -> LeafCopy
        requires { length payload.now ≤ 496 }
        ensures used { result.used ≡ length payload.now }
        ensures front { front result ≡ payload.now }
    {
        let mut bytes = [0u8; 496];
        let used = payload.len();
        bytes[0..used].copy_from_slice(payload);
        LeafCopy {
            bytes,
            used: used as u16,
        }
    }

    // The used bytes.
    pub fn bytes(&self) -> &[u8]
        ensures { result.now ≡ front self.now }
    {
        &self.bytes[..self.used as usize]
    }

    // Of a folder's leaf, which has 480 bytes, all of them.
    pub fn folder_bytes(&self) -> &[u8]
        ensures value { result.now ≡ folder_bytes self.now }
        ensures count { length result.now ≡ 480 }
    {
        &self.bytes[..480]
    }

    // Of a folder's leaf, the 15 cells of its entries.
    pub fn cells(&self) -> &[[u8; 32]]
        ensures value { result.now ≡ cells (folder_bytes self.now) }
        ensures count { length result.now ≡ 15 }
    {
        self.bytes.as_chunks::<32>().0
    }
}
