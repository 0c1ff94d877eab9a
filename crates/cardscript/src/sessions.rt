// A script cut into sessions: what lies between one power-on and the next.
use script::command::{Command, is_silent, parse};
use std::alloc::{AllocError, Global};
use std::mem;

// A line that prints something. None is no command.
pub type Line<'a> = Option<Command<'a>>;

fn is_power_on(line: &Line) -> bool {
    matches!(
        line,
        Some(Command::Card(_) | Command::Layers(_) | Command::Power)
    )
}

// The lines before the first of one command, and those behind it if it is there.
pub fn cut_at<'s, 'a>(
    session: &'s [Line<'a>],
    mark: Command,
) -> (&'s [Line<'a>], Option<&'s [Line<'a>]>) {
    match session.iter().position(|line| *line == Some(mark)) {
        Some(place) => (&session[..place], Some(&session[place + 1..])),
        None => (session, None),
    }
}

// The sessions of a script. Each but the first begins with its power-on.
pub fn sessions<'a>(heap: Global, text: &'a [u8]) -> Result<Vec<Vec<Line<'a>>>, AllocError> {
    let mut sessions = Vec::new(heap);
    let mut session = Vec::new(heap);
    for text in text.split(|byte| *byte == b'\n') {
        if is_silent(text) {
            continue;
        }
        let line = parse(text);
        if is_power_on(&line) {
            sessions.push(mem::replace(&mut session, Vec::new(heap)))?;
        }
        session.push(line)?;
    }
    sessions.push(session)?;
    Ok(sessions)
}
