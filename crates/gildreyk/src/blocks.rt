// A line for each block of an image.
use crate::text::Name;
use anyhow::anyhow;
use base::number::BlockNo;
use base::owner::{Back, Kind};
use entries::entry::{Cell, cells, parse_cell};
use layout::block::{Block, Slot, parse, parse_cover};
use layout::geometry::Geometry;
use layout::number::number16;
use std::io;

fn print_slot(rt: &impl Print, n: u16, kind: Kind, slot: &Slot) -> io::Result<()> {
    let s = n.saturating_sub(1);
    let identity = slot.identity;
    let parent = slot.parent.slot;
    let above = slot.parent.identity;
    let count = slot.count();
    print!(rt;
        "block {n}: {kind} slot {s}, identity {identity}, in slot {parent} of identity {above}, leaves {count}"
    )?;
    for pair in slot.numbers.as_chunks::<2>().0 {
        let b = number16(*pair);
        print!(rt; " @{b}")?;
    }
    println!(rt; "")
}

fn print_body(rt: &impl Print, n: u16, kind: Kind, back: &Back, length: usize) -> io::Result<()> {
    let slot = back.owner.slot;
    let identity = back.owner.identity;
    let leaf = back.leaf;
    println!(rt;
        "block {n}: {kind} body, of slot {slot} identity {identity}, leaf {leaf}, length {length}"
    )
}

fn print_entries(rt: &impl Print, g: &Geometry, payload: &[u8]) -> io::Result<()> {
    for (place, cell) in cells(payload).iter().enumerate() {
        match parse_cell(g, cell) {
            Cell::Used(entry) => {
                let name = Name(entry.name);
                let slot = entry.child.slot;
                let identity = entry.child.identity;
                println!(rt; "  place {place}: {name} -> slot {slot} identity {identity}")?;
            }
            Cell::IllFormed => println!(rt; "  place {place}: ill formed")?,
            Cell::Blank => {}
        }
    }
    Ok(())
}

fn print_block(rt: &impl Print, g: &Geometry, n: u16, bytes: &[u8; 512]) -> io::Result<()> {
    match parse(g, BlockNo(n), bytes) {
        Block::Blank => println!(rt; "block {n}: blank"),
        Block::Cover { blocks, slots } => {
            println!(rt; "block {n}: cover, {blocks} blocks, {slots} slots")
        }
        Block::FileSlot(slot) => print_slot(rt, n, Kind::File, &slot),
        Block::FolderSlot(slot) => print_slot(rt, n, Kind::Folder, &slot),
        Block::FileBody(body) => print_body(rt, n, Kind::File, &body.back, body.payload.len()),
        Block::FolderBody(body) => {
            print_body(rt, n, Kind::Folder, &body.back, body.payload.len())?;
            print_entries(rt, g, body.payload)
        }
        Block::IllFormed => println!(rt; "block {n}: ill formed"),
    }
}

// Prints the blocks of the card that the image's cover tells of.
pub fn print(rt: &impl Print, image: &[u8]) -> anyhow::Result<()> {
    let (blocks, _) = image.as_chunks::<512>();
    let Some(g) = blocks.first().and_then(|block| parse_cover(block)) else {
        return Err(anyhow!("the image has no cover that is well formed"));
    };
    let there = blocks.len();
    let all = g.blocks;
    if there < all as usize {
        println!(rt; "the image has {there} of the card's {all} blocks")?;
    }
    for (n, block) in (0..all).zip(blocks) {
        print_block(rt, &g, n, block)?;
    }
    Ok(())
}
