//! Decoded commands: a flag, an opcode, and two arguments of 32 bits, each cut to its field; a goal is the single with these bits.
//! `judge` tries codes 8, 9 and 10; `write`, whose line has the size of the room in front, 8, then 9 or 10, then 24; `step` carries one out. `pictures` has
//! two arguments of 16 bits, those of IMAGE or TRACK, and seconds.
use super::{lines, rooms, say};
use wire::{Command, Kind, Tell};

/// The command that a line says. An opcode that is not in the table stands for a FLUSH.
pub fn command(s: &[u8]) -> Command {
    let kind = match wire::rule_of(words::half_at(s, 1)) {
        Some((form, _)) => wire::kind_of(form, words::word_at(s, 3), words::word_at(s, 7)),
        None => Kind::TlmFlush,
    };
    Command {
        flag: words::byte_at(s, 0) == 1,
        kind,
    }
}

/// `judge`: the code of a decoded command.
pub fn judge(s: &[u8]) {
    match wire::judge(command(s)) {
        Ok(()) => say::text(b"code 0"),
        Err(refusal) => say::told(refusal.told()),
    }
}

/// `write`: writes it into a room.
pub fn write(s: &[u8]) {
    rooms::put_command(command(lines::rest(s, 1)), words::byte_at(s, 0));
}

/// `pictures`: how many come in so many seconds.
pub fn pictures(s: &[u8]) {
    let count = camera::pictures(
        words::half_at(s, 0),
        words::half_at(s, 2),
        words::word_at(s, 4),
    );
    say::number(u64::from(count));
}
