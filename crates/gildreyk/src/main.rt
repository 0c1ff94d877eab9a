// The shop's command over card images.
#![tactic(auto)]

use anyhow::{Context, anyhow};
use std::{env, fs};

mod blocks;
mod text;
mod tree;

const HELP: &str = "gildreyk: looks into a stand's card

  gildreyk blocks IMAGE   a line for each block: what it holds, whose it is, which leaf, how long
  gildreyk tree IMAGE     every folder and file below the root, with its leaves, and what is damaged
  gildreyk all IMAGE      both
  gildreyk help           this text";

// The bytes of the image that the word behind a command names.
fn load(rt: &HostRuntime, command: &str, name: Option<String>) -> anyhow::Result<Vec<u8>> {
    let Some(path) = name else {
        return Err(anyhow!("{command}: name an image"));
    };
    fs::read(rt, path.as_str()).with_context(|| anyhow!("{path} cannot be read"))
}

// Does what the words of the command line ask for.
fn run(rt: &HostRuntime) -> anyhow::Result<()> {
    let mut words = env::args(rt)?;
    let _program = words.next();
    let Some(command) = words.next() else {
        return Ok(println!(rt; "{HELP}")?);
    };
    match command.as_str() {
        "blocks" => blocks::print(rt, load(rt, "blocks", words.next())?.as_slice()),
        "tree" => tree::print(
            rt,
            rt.alloc(),
            load(rt, "tree", words.next())?.as_mut_slice(),
        ),
        "all" => {
            let mut image = load(rt, "all", words.next())?;
            blocks::print(rt, image.as_slice())?;
            tree::print(rt, rt.alloc(), image.as_mut_slice())
        }
        "help" => Ok(println!(rt; "{HELP}")?),
        _ => Err(anyhow!("no such command as {command}: try gildreyk help")),
    }
}

fn main(rt: HostRuntime) -> anyhow::Result<()> {
    run(&rt)
}
