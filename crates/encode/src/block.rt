// Encoders of blocks. Bytes that have no name are written zero.
ghost use Rattle.std.specs.Prelude.{◌≡◌, ◌<◌, ◌≤◌, ◌++◌, length, MatchOption, IfSome, ◌≢◌, slice_set};
ghost use Rattle.layout.specs.Format.{blank, cover, slotted, file_body, folder_body, encode, numbers_bytes, padded};
ghost use Rattle.layout.specs.Sizes.{sizes};
ghost use Rattle.layout.specs.Head.{cells};
ghost use Rattle.layout.specs.Laws.{ReadAs, ReadAsFolder, ChangedAt};
ghost use Rattle.encode.specs.Heads.{plain, slot_record, body_byte, body_head_bytes, Placed};

use crate::bytes::{body_head, cover_head, fill, slot_head};
use base::number::{BlockNo, Identity};
use base::owner::{Back, Handle, Kind};
use layout::geometry::Geometry;

pub fn encode_blank() -> [u8; 512]
    ensures bytes { result ≡ encode blank }
    ensures read { ReadAs blank result }
{
    fill(&[], &[])
}

pub fn encode_cover(g: &Geometry) -> [u8; 512]
    ensures bytes { result ≡ encode (cover (sizes g.now)) }
    ensures read { ReadAs (cover (sizes g.now)) result }
{
    fill(&cover_head(g.blocks, g.slots), &[])
}

// The body of a leaf of a file or folder.
fn encode_body(kind: Kind, back: &Back, payload: &[u8]) -> [u8; 512]
    requires { length payload.now ≤ 496 }
    ensures { result ≡ body_head_bytes (body_byte kind) back.now (length payload.now) ++ padded 496 payload.now }
{
    fill(&body_head(kind, back, payload.len() as u16), payload)
}

// None where the leaf has more than 496 bytes.
pub fn encode_file_body(back: &Back, bytes: &[u8]) -> Option<[u8; 512]>
    ensures bytes { MatchOption result (496 < length bytes.now) (λ b. (length bytes.now ≤ 496) × (b ≡ encode (file_body back.now bytes.now))) }
    ensures read { IfSome result (λ b. ReadAs (file_body back.now bytes.now) b) }
{
    if bytes.len() > 496 {
        return None;
    }
    Some(encode_body(Kind::File, back, bytes))
}

// None where the leaf has other than 480 bytes.
pub fn encode_folder_body(back: &Back, payload: &[u8]) -> Option<[u8; 512]>
    ensures bytes { MatchOption result (length payload.now ≢ 480) (λ b. (length payload.now ≡ 480) × (b ≡ encode (folder_body back.now (cells payload.now)))) }
    ensures read { IfSome result (λ b. ReadAsFolder back.now (cells payload.now) b) }
{
    if payload.len() != 480 {
        return None;
    }
    Some(encode_body(Kind::Folder, back, payload))
}

// With another cell at one place. None where the leaf has other than 480 bytes or no such place.
pub fn encode_folder_change(
    back: &Back,
    payload: &[u8],
    place: usize,
    cell: &[u8; 32],
) -> Option<[u8; 512]>
    ensures bytes { MatchOption result (Placed payload.now place → ⊥) (λ b. Placed payload.now place × (b ≡ encode (folder_body back.now (slice_set (cells payload.now) place cell.now)))) }
    ensures read { IfSome result (λ b. ReadAsFolder back.now (slice_set (cells payload.now) place cell.now) b × ChangedAt place cell.now (cells payload.now) (slice_set (cells payload.now) place cell.now)) }
{
    if place >= 15 {
        return None;
    }
    let mut block = encode_folder_body(back, payload)?;
    let at = 16 + 32 * place;
    block[at..at + 32].copy_from_slice(cell);
    Some(block)
}

// The bytes of numbers, and zeros to the end.
fn encode_numbers(numbers: &[BlockNo]) -> [u8; 128]
    requires { length numbers.now ≤ 64 }
    ensures { result ≡ padded 128 (numbers_bytes (plain numbers.now)) }
{
    let mut bytes = [0; 128];
    // Kept: an index of bytes; as_chunks_mut gives the pairs, and its contract does not say what the slice ends as.
    for (k, number) in numbers.iter().enumerate() {
        bytes[2 * k..2 * k + 2].copy_from_slice(&number.0.to_le_bytes());
    }
    bytes
}

// None where there are more than 64 numbers.
pub fn encode_slot(
    kind: Kind,
    identity: Identity,
    parent: &Handle,
    numbers: &[BlockNo],
) -> Option<[u8; 512]>
    ensures bytes { MatchOption result (64 < length numbers.now) (λ b. (length numbers.now ≤ 64) × (b ≡ encode (slotted (slot_record kind identity.0 parent.now (plain numbers.now))))) }
    ensures read { IfSome result (λ b. ReadAs (slotted (slot_record kind identity.0 parent.now (plain numbers.now))) b) }
{
    if numbers.len() > 64 {
        return None;
    }
    let head = slot_head(kind, numbers.len() as u16, identity, parent);
    Some(fill(&head, &encode_numbers(numbers)))
}
