//! Rooms, and writing into a lent one: of 256 bytes of aa the writer is lent the first few, at most 255, and all are looked at afterwards.
//! A writer that refuses must leave them all as they were; one that writes, all behind what it wrote.
use super::{lines, say};
use frame::Frame;
use housekeeping::Housekeeping;
pub use script::rooms::FILL;
use wire::{Command, Tell};
use words::Code;

/// The front of a room, so long; all of one that is shorter.
pub fn front<T>(room: &mut [T], size: usize) -> &mut [T] {
    let end = size.min(room.len());
    &mut room[..end]
}

/// The same for the length that a line says.
pub fn lent<T>(room: &mut [T], size: u16) -> &mut [T] {
    front(room, usize::from(size))
}

/// Sets a byte; nothing where the room has no such place.
pub fn set(room: &mut [u8], at: usize, value: u8) {
    if at < room.len() {
        room[at] = value;
    }
}

/// Puts bytes into a room from a place on, as far as they fit.
pub fn paste(room: &mut [u8], at: usize, s: &[u8]) {
    for (i, &b) in s.iter().enumerate() {
        set(room, at.wrapping_add(i), b);
    }
}

/// Are all bytes from a place on still aa?
pub fn rest(room: &[u8], from: usize) {
    let changed = script::rooms::first_changed(room, from);
    if changed < room.len() {
        say::field(b", changed byte ", changed as u64);
    } else {
        say::text(b", rest aa");
    }
}

// Lends so many bytes of a room to a writer, and says what came of it: what was written, or why nothing was, and what is behind it.
fn put<E, W, R>(size: u8, write: W, refused: R)
where
    W: FnOnce(&mut [u8]) -> Result<usize, E>,
    R: FnOnce(E) + Drop,
    requires write_callable { W.IsAlwaysCallable write }
    requires refused_callable { R.IsAlwaysCallable refused }
{
    let mut room = [FILL; 256];
    match write(&mut room[..usize::from(size)]) {
        Ok(count) => {
            say::text(b"code 0, wrote ");
            say::hex(lines::part(&room, 0, count));
            rest(&room, count);
        }
        Err(refusal) => {
            refused(refusal);
            rest(&room, 0);
        }
    }
}

/// Writes a command into so many bytes of a room, and says what came of it.
pub fn put_command(command: Command, size: u8) {
    put(
        size,
        |room| wire::write_command(command, room),
        |refusal| say::told(refusal.told()),
    );
}

/// Writes a frame into so many bytes of a room, and says what came of it.
pub fn put_frame(f: Frame, size: u8) {
    put(
        size,
        |room| frame::write_frame(f, room).map(|()| frame::SIZE),
        |refusal| say::field8(b"code ", refusal.code()),
    );
}

/// Writes a housekeeping frame into so many bytes of a room, and says what came of it.
pub fn put_housekeeping(h: Housekeeping, size: u8) {
    put(
        size,
        |room| housekeeping::write_housekeeping(h, room).map(|()| housekeeping::SIZE),
        |refusal| say::field8(b"code ", refusal.code()),
    );
}

/// Writes a frame of the gas valve into so many bytes of a room, and says what came of it.
pub fn put_valve(f: valve::Frame, size: u8) {
    put(
        size,
        |room| valve::write_frame(f, room).map(|()| valve::SIZE),
        |refusal| say::field8(b"code ", refusal.code()),
    );
}
