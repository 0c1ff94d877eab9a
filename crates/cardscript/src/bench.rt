// The image with its devices while no card is open.
//
// Devices are put over the image for each format and for each open. In between nothing of them is lost: an accepted
// format has settled and sent each of its blocks down once, so a failing card has as many writes fewer to pass; one that
// met power gone leaves devices without power.
use crate::calls::{obey_opened, obey_surveyed};
use crate::sessions::{Line, cut_at, sessions};
use crate::stack::Stack;
use crate::{answer, image};
use base::number::BlockNo;
use base::refusal::Refusal;
use card::opened::open;
use device::Device;
use format::format;
use screen::leaf::gildreyk_leaf;
use script::command::{Command, Hex, Layers};
use std::io;
use std::io::Read;

#[derive(Drop)]
struct Bench {
    image: Vec<u8>,
    layers: Layers,
    // Writes of formats since power came on.
    spent: u32,
    // Whether one of them met power gone.
    gone: bool,
}

// The layers with as many writes fewer to pass.
fn after(layers: Layers, spent: u32) -> Layers {
    match layers {
        Layers::Plain => Layers::Plain,
        Layers::Buffered => Layers::Buffered,
        Layers::Failing(k) => Layers::Failing(k.saturating_sub(spent)),
        Layers::BufferedFailing(k) => Layers::BufferedFailing(k.saturating_sub(spent)),
        Layers::FailingBuffered(k) => Layers::FailingBuffered(k.saturating_sub(spent)),
    }
}

// Devices without power: the one write that is tried is refused.
fn powerless(image: &mut [u8]) -> Stack<'_> {
    let mut devices = Stack::new(Layers::Failing(0), image);
    let _refused = devices.write(BlockNo(0), &[0; 512]);
    devices
}

impl Bench {
    fn power_on(&mut self) {
        self.spent = 0;
        self.gone = false;
    }

    // The devices as they stand.
    fn devices(&mut self) -> Stack<'_> {
        if self.gone {
            return powerless(&mut self.image);
        }
        Stack::new(after(self.layers, self.spent), &mut self.image)
    }

    fn format(&mut self, blocks: u16, slots: u16) -> Result<(), Refusal> {
        let answer = format(&mut self.devices(), blocks, slots);
        match answer {
            Ok(()) => self.spent = self.spent.saturating_add(blocks as u32),
            Err(refusal) => self.gone |= refusal.is_power_gone(),
        }
        answer
    }

    fn set(&mut self, rt: &impl Print, at: u16, content: &Hex) -> io::Result<()> {
        match image::set(&mut self.image, at, content) {
            Some(()) => answer::ok(rt),
            None => answer::bad_command(rt),
        }
    }

    fn screen(&self, rt: &HostRuntime, path: &Hex, leaf: u16, room: u16) -> anyhow::Result<()> {
        let path = path.bytes(rt.alloc())?;
        let mut buffer = vec![in rt.alloc(); 0; room as usize]?;
        let number = gildreyk_leaf(&self.image, &path, leaf as u32, &mut buffer);
        Ok(answer::screen(rt, number, &buffer)?)
    }

    fn new_card(&mut self, rt: &HostRuntime, count: u16) -> anyhow::Result<()> {
        self.image = vec![in rt.alloc(); 0; 512 * count as usize]?;
        self.layers = Layers::Plain;
        self.power_on();
        Ok(answer::ok(rt)?)
    }

    // A line while no card is open; an `open` is not among them.
    fn obey(&mut self, rt: &HostRuntime, line: &Line) -> anyhow::Result<()> {
        match line {
            None => answer::bad_command(rt)?,
            Some(Command::Card(count)) => self.new_card(rt, *count)?,
            Some(Command::Layers(layers)) => {
                self.layers = *layers;
                self.power_on();
                answer::ok(rt)?;
            }
            Some(Command::Power) => {
                self.power_on();
                answer::ok(rt)?;
            }
            Some(Command::Block(at, content)) => self.set(rt, *at, content)?,
            Some(Command::Dump(at)) => answer::dump(rt, image::block(&self.image, *at))?,
            Some(Command::Format(blocks, slots)) => {
                answer::done(rt, self.format(*blocks, *slots))?
            }
            Some(Command::Screen(path, leaf, room)) => self.screen(rt, path, leaf.0, *room)?,
            Some(_) => answer::not_now(rt)?,
        }
        Ok(())
    }

    // Obeys a session: no card is open at first, then one is, then it is surveyed.
    fn obey_session(&mut self, rt: &HostRuntime, session: &[Line]) -> anyhow::Result<()> {
        let (closed, behind_open) = cut_at(session, Command::Open);
        for line in closed {
            self.obey(rt, line)?;
        }
        let Some(behind_open) = behind_open else {
            return Ok(());
        };
        let mut opened = open(self.devices());
        answer::ok(rt)?;
        let (reading, behind_end) = cut_at(behind_open, Command::End);
        for line in reading {
            obey_opened(rt, &mut opened, line)?;
        }
        let Some(changing) = behind_end else {
            return Ok(());
        };
        let mut surveyed = opened.end();
        answer::ok(rt)?;
        for line in changing {
            obey_surveyed(rt, &mut surveyed, line)?;
        }
        Ok(())
    }
}

// Obeys the script on the standard input.
pub fn run(rt: &HostRuntime) -> anyhow::Result<()> {
    let mut text = Vec::new(rt.alloc());
    rt.stdin().read_to_end(&mut text)?;
    let mut bench = Bench {
        image: Vec::new(rt.alloc()),
        layers: Layers::Plain,
        spent: 0,
        gone: false,
    };
    for session in sessions(rt.alloc(), &text)? {
        bench.obey_session(rt, &session)?;
    }
    Ok(())
}
