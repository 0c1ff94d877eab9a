// What the demonstration prints.
use crate::counting::Tally;
use crate::parts::Choir;
use crate::pulling::{DRAWN, FEW};
use crate::sums::{Sums, Worst};
use base::number::BlockNo;
use power::ledger::LastWrite;
use std::io;

// The parts, and the card that they go onto.
pub fn tell_parts(rt: &impl Print, choir: &Choir) -> io::Result<()> {
    let title = choir.piece.title;
    let blocks = choir.piece.blocks;
    let slots = choir.piece.slots;
    println!(rt; "{title}: four parts go onto a new card of {blocks} blocks and {slots} slots")?;
    for part in &choir.parts {
        let name = part.voice.name();
        let leaves = part.old.len();
        let longest = part.old.iter().map(|leaf| leaf.len()).max().unwrap_or(0);
        println!(rt; "  {name:<8} {leaves:>2} leaves, the longest of {longest} bytes")?;
    }
    println!(rt; "They are written and synced, the plug is pulled, and every leaf is read.")
}

pub fn tell_read_back(rt: &impl Print, right: usize, wanted: usize) -> io::Result<()> {
    println!(rt; "  {right} of {wanted} leaves are byte for byte what was last written to them")
}

// The save of the new edition.
pub fn tell_save(rt: &impl Print, choir: &Choir, written: &[BlockNo]) -> io::Result<()> {
    let many = written.len();
    for part in choir.parts.iter().filter(|part| !part.new.is_empty()) {
        let name = part.voice.name();
        let leaves = part.new.len();
        println!(rt; "The new edition of {name} has {leaves} leaves, each with other words.")?;
    }
    print!(rt; "Its save writes {many} blocks, in this order:")?;
    for block in written {
        let number = block.0;
        print!(rt; " {number}")?;
    }
    println!(rt; "")
}

fn tell_row(rt: &impl Print, name: &str, tally: &Tally) -> io::Result<()> {
    let old = tally.old;
    let new = tally.new;
    let refused = tally.refused;
    let other = tally.other;
    println!(rt; "  {name:<8} {old:>8} {new:>8} {refused:>8} {other:>14}")
}

// Where the plug was pulled, and how often.
pub fn tell_tries(rt: &impl Print, sums: &Sums, written: &[BlockNo]) -> io::Result<()> {
    let many = written.len();
    let pulls = sums.pulls;
    let landings = sums.landings;
    println!(rt;
        "The plug is pulled {pulls} times: at each of the {many} writes twice (what it carries is lost, or may stand),"
    )?;
    println!(rt;
        "and after the last. Then what waits lands in some mixture of old and new: in every one if at most"
    )?;
    println!(rt;
        "{FEW} blocks wait; else the first ones land, one alone, all but one, and {DRAWN} mixtures are drawn by a rule."
    )?;
    println!(rt;
        "After each of the {landings} landings a stand opens the card and every leaf of every part."
    )
}

// What every leaf showed.
pub fn tell_table(rt: &impl Print, choir: &Choir, sums: &Sums) -> io::Result<()> {
    let calls = sums.calls;
    let leaves = sums
        .parts
        .iter()
        .fold(0, |sum: u32, tally| sum.saturating_add(tally.opened()));
    println!(rt; "Calls and cuts made: {calls}. Leaves opened: {leaves}. They showed:")?;
    println!(rt; "  part          old      new  refused  anything else")?;
    for (part, tally) in choir.parts.iter().zip(&sums.parts) {
        tell_row(rt, part.voice.name(), tally)?;
    }
    Ok(())
}

pub fn tell_alto(rt: &impl Print, sums: &Sums) -> io::Result<()> {
    let mixed = sums.mixed;
    let landings = sums.landings;
    println!(rt;
        "After {mixed} of the {landings} landings the alto part showed leaves of both editions at once."
    )
}

// The worst of the landings.
pub fn tell_worst(rt: &impl Print, worst: &Worst, written: &[BlockNo]) -> io::Result<()> {
    let accepted = worst.landed.pull.accepted;
    let what = match worst.landed.pull.last {
        LastWrite::Lost => "is lost",
        LastWrite::MayStand => "may stand",
    };
    let old = worst.alto.old;
    let new = worst.alto.new;
    let refused = worst.alto.refused;
    let many = written.len();
    println!(rt;
        "One of the worst: {accepted} of the {many} writes are accepted, the next {what}. Alto then shows"
    )?;
    println!(rt;
        "{old} old leaves and {new} new, and {refused} is refused. There the part is shortened to no leaf, the new edition"
    )?;
    println!(rt; "is written again and synced, the plug is pulled, and every leaf is read.")
}
