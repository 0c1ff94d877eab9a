// Small card images.
use base::number::{BlockNo, Identity, LeafNo, SlotNo};
use base::owner::{Back, Handle, Kind};
use encode::block::{encode_cover, encode_file_body, encode_folder_body, encode_slot};
use encode::entry::encode_entry;
use layout::geometry::Geometry;

// A card of 12 blocks and 4 slots.
pub const SIZE: usize = 6144;

pub fn handle(slot: u16, identity: u32) -> Handle {
    Handle {
        slot: SlotNo(slot),
        identity: Identity(identity),
    }
}

// Puts bytes at a place, where there is room.
pub fn put(image: &mut [u8], at: usize, bytes: &[u8]) {
    if at <= image.len() && bytes.len() <= image.len() - at {
        image[at..at + bytes.len()].copy_from_slice(bytes);
    }
}

pub fn put_slot(
    image: &mut [u8],
    s: u16,
    kind: Kind,
    identity: u32,
    parent: &Handle,
    numbers: &[BlockNo],
) {
    if let Some(block) = encode_slot(kind, Identity(identity), parent, numbers) {
        put(image, 512 * (s as usize + 1), &block);
    }
}

pub fn put_file(image: &mut [u8], b: u16, owner: Handle, leaf: u16, bytes: &[u8]) {
    let back = Back {
        owner,
        leaf: LeafNo(leaf),
    };
    if let Some(block) = encode_file_body(&back, bytes) {
        put(image, 512 * b as usize, &block);
    }
}

// A folder's body with one entry, at place 0.
pub fn put_folder(image: &mut [u8], b: u16, owner: Handle, name: &[u8], child: &Handle) {
    let back = Back {
        owner,
        leaf: LeafNo(0),
    };
    if let Some(block) = encode_folder_body(&back, &[0; 480]) {
        put(image, 512 * b as usize, &block);
    }
    put_entry(image, b, 0, name, child);
}

pub fn put_entry(image: &mut [u8], b: u16, place: u8, name: &[u8], child: &Handle) {
    if let Some(cell) = encode_entry(name, child) {
        put(image, 512 * b as usize + 16 + 32 * place as usize, &cell);
    }
}

// alto is a file of two leaves in the root; mass is a folder in the root, and bass a file of one leaf in it.
pub fn example() -> [u8; SIZE] {
    let mut image = [0u8; SIZE];
    let root = handle(0, 1);
    let alto = handle(1, 2);
    let mass = handle(2, 3);
    let bass = handle(3, 4);
    if let Some(g) = Geometry::new(12, 4) {
        put(&mut image, 0, &encode_cover(&g));
    }
    put_slot(&mut image, 0, Kind::Folder, 1, &root, &[BlockNo(5)]);
    put_slot(
        &mut image,
        1,
        Kind::File,
        2,
        &root,
        &[BlockNo(6), BlockNo(7)],
    );
    put_slot(&mut image, 2, Kind::Folder, 3, &root, &[BlockNo(8)]);
    put_slot(&mut image, 3, Kind::File, 4, &mass, &[BlockNo(9)]);
    put_folder(&mut image, 5, root, b"alto", &alto);
    put_entry(&mut image, 5, 1, b"mass", &mass);
    put_file(&mut image, 6, alto, 0, b"Kyrie");
    put_file(&mut image, 7, alto, 1, b"Gloria");
    put_folder(&mut image, 8, mass, b"bass", &bass);
    put_file(&mut image, 9, bass, 0, b"Sanctus");
    image
}
