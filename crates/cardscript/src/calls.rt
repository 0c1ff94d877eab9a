// The calls to an open card.
use crate::sessions::Line;
use crate::stack::Stack;
use crate::{answer, image};
use base::number::LeafNo;
use base::owner::Handle;
use card::opened::Opened;
use card::readable::Readable;
use card::surveyed::Surveyed;
use listing::line::{NO_DAMAGE, NO_ENTRY};
use script::command::Command;
use std::io;

// A line while a card is only opened; its `end` is not among them.
pub fn obey_opened(rt: &HostRuntime, card: &mut Opened<Stack>, line: &Line) -> anyhow::Result<()> {
    match line {
        None => answer::bad_command(rt)?,
        Some(Command::Step) => answer::surveying(rt, card.step())?,
        Some(Command::Dump(at)) => answer::dump(rt, image::block(card.device().image(), *at))?,
        Some(Command::Block(at, _)) => block(rt, card.device().image(), *at)?,
        Some(command) => ask(rt, card, command)?,
    }
    Ok(())
}

// A line while a card is surveyed.
pub fn obey_surveyed(
    rt: &HostRuntime,
    card: &mut Surveyed<Stack>,
    line: &Line,
) -> anyhow::Result<()> {
    match line {
        None => answer::bad_command(rt)?,
        Some(Command::Dump(at)) => answer::dump(rt, image::block(card.device().image(), *at))?,
        Some(Command::Block(at, _)) => block(rt, card.device().image(), *at)?,
        Some(command) => change(rt, card, command)?,
    }
    Ok(())
}

// A block is set only while no card is open; one that the image does not have is no command at any moment.
fn block(rt: &impl Print, image: &[u8], at: u16) -> io::Result<()> {
    match image::block(image, at) {
        Some(_) => answer::not_now(rt),
        None => answer::bad_command(rt),
    }
}

// A call that only a surveyed card has, or any other.
fn change(rt: &HostRuntime, card: &mut Surveyed<Stack>, command: &Command) -> anyhow::Result<()> {
    let heap = rt.alloc();
    match command {
        Command::Space => answer::space(rt, card.space())?,
        Command::Create(folder, name, kind) => {
            let name = name.bytes(heap)?;
            answer::found(rt, card.create(*kind, folder, &name))?;
        }
        Command::Write(file, leaf, content) => {
            let content = content.bytes(heap)?;
            answer::done(rt, card.write(file, *leaf, &content))?;
        }
        Command::Shorten(file, n) => answer::done(rt, card.shorten(file, *n))?,
        Command::Remove(folder, name) => {
            let name = name.bytes(heap)?;
            answer::done(rt, card.remove(folder, &name))?;
        }
        Command::Sync => answer::done(rt, card.sync())?,
        _ => ask(rt, card, command)?,
    }
    Ok(())
}

// A reading call. Whatever is none does not fit the moment.
fn ask<C: Readable>(rt: &HostRuntime, card: &mut C, command: &Command) -> anyhow::Result<()> {
    let heap = rt.alloc();
    match command {
        Command::Find(folder, name) => {
            let name = name.bytes(heap)?;
            answer::found(rt, card.find(folder, &name))?;
        }
        Command::Path(path) => {
            let path = path.bytes(heap)?;
            answer::led(rt, card.path(&path))?;
        }
        Command::Status(handle) => answer::status(rt, card.status(handle))?,
        Command::List(folder, room) => {
            let mut lines = vec![in heap; NO_ENTRY; *room as usize]?;
            let answer = card.list(folder, &mut lines);
            answer::entries(rt, answer, &lines)?;
        }
        Command::Damage(room) => {
            let mut lines = vec![in heap; NO_DAMAGE; *room as usize]?;
            let answer = card.damage(&mut lines);
            answer::damage(rt, answer, &lines)?;
        }
        Command::Read(file, leaf, room) => read(rt, card, file, *leaf, *room)?,
        _ => answer::not_now(rt)?,
    }
    Ok(())
}

fn read<C: Readable>(
    rt: &HostRuntime,
    card: &mut C,
    file: &Handle,
    leaf: LeafNo,
    room: u16,
) -> anyhow::Result<()> {
    let mut buffer = vec![in rt.alloc(); 0; room as usize]?;
    let answer = card.read(file, leaf, &mut buffer);
    Ok(answer::leaf(rt, answer, &buffer)?)
}
