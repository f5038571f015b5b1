//! Housekeeping frames. `tags` reads bytes as one, and writes what was taken into a room of 40 bytes; `pack`, whose line has the size of the room in
//! front, writes the frame of four numbers: the last received and the last failed number, 32 bits each, its code and the free slots, 8 bits each.
use super::{lines, rooms, say, telling};
use housekeeping::Housekeeping;
use words::Code;

// A room with some bytes to spare behind the frame.
const AMPLE: u8 = 40;

// A frame that was taken: its numbers, and the bytes that it is written as.
fn taken(h: Housekeeping) {
    say::text(b"code 0, ");
    telling::numbers(h);
    say::text(b"; written again: ");
    rooms::put_housekeeping(h, AMPLE);
}

/// `tags`: the code of reading these bytes.
pub fn read(s: &[u8]) {
    match housekeeping::read_housekeeping(s) {
        Ok(h) => taken(h),
        Err(refusal) => say::field8(b"code ", refusal.code()),
    }
}

// The numbers that stand one behind another in a line.
fn fields(s: &[u8]) -> Housekeeping {
    Housekeeping {
        received: words::word_at(s, 0),
        failed: words::word_at(s, 4),
        code: words::byte_at(s, 8),
        free: words::byte_at(s, 9),
    }
}

/// `pack`: writes them into a room.
pub fn write(s: &[u8]) {
    rooms::put_housekeeping(fields(lines::rest(s, 1)), words::byte_at(s, 0));
}
