//! Reading one command: `read`, the code with what was wrong with the number, or the command that was taken.
//! `again` writes a taken command again, into a room of 40 bytes.
use super::{rooms, say};
use wire::{Command, Refusal, Tell};

// A room with some bytes to spare behind every command.
const AMPLE: u8 = 40;

fn answer(read: Result<Command, Refusal>) {
    match read {
        Ok(command) => say::taken(command),
        Err(refusal) => say::told(refusal.told()),
    }
}

/// `read`: the code of one command from bytes.
pub fn read(s: &[u8]) {
    answer(wire::read_command(s));
}

/// `again`: the same, and the bytes that a taken command is written as.
pub fn again(s: &[u8]) {
    let read = wire::read_command(s);
    answer(read);
    if let Ok(command) = read {
        say::text(b"; written again: ");
        rooms::put_command(command, AMPLE);
    }
}
