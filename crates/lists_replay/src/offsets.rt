//! Offsets of 16 bits: those that a script hands in, and lent rooms of them.
use script::offsets::SIZE;
use script::{Stretch, offsets, output, rooms};

/// The most offsets that an item hands in, and the largest room; a longer one counts as this.
pub const MOST: usize = 600;

// The bytes of the number of offsets that stands before them.
const HEAD: usize = 2;

/// Offsets behind their number. Where they are more than the most, the script counts as one that does not have them.
pub fn take(s: &[u8], at: usize) -> Stretch {
    let head = script::take(s, at, HEAD);
    if !head.whole {
        return head;
    }
    let count = words::half_at(s, head.from) as usize;
    if MOST < count {
        return script::none(s);
    }
    script::take(s, head.to, count * SIZE)
}

/// The first so many offsets of a room, in decimal.
pub fn numbers(out: &mut [u8], used: usize, room: &[u16], count: usize) -> usize {
    let mut next = used;
    for &offset in room.iter().take(count) {
        next = output::number(out, next, u64::from(offset));
    }
    next
}

/// `rest same`, or `rest` and the place of the first offset from this place on that was changed.
pub fn rest_line(out: &mut [u8], used: usize, room: &[u16], from: usize) -> usize {
    rooms::rest(out, used, offsets::first_changed(room, from), room.len())
}
