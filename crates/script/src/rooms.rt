//! Lent rooms: how long one is, what it holds at first, and whether it is as it was behind what a call put there.
ghost use Rattle.std.specs.Prelude.{min, ◌≡◌};
ghost use Rattle.script.specs.Rooms.{byte_fill, first_changed, first_other};

use super::output;

/// What a room of bytes holds at first.
pub const FILL: u8 = 0xaa;

/// The largest room whose length is one byte, and the largest whose length is two; a longer one counts as this.
pub const SHORT: usize = 255;

pub const LARGEST: usize = 13000;

/// A room's length; one above the most counts as the most.
pub fn capped(length: u16, most: usize) -> usize
    ensures { result ≡ min length most }
{
    most.min(length as usize)
}

// Where the first value from this place on stands that is not the filling; behind the room where all are.
pub(crate) fn first_other<T: Copy + PartialEq>(room: &[T], fill: T, from: usize) -> usize
    ensures { result ≡ first_other T.eq fill room.now from }
{
    for i in from..room.len() {
        if room[i] != fill {
            return i;
        }
    }
    from.max(room.len())
}

/// Where the first byte from this place on stands that is not as it was; behind the room where all are.
pub fn first_changed(room: &[u8], from: usize) -> usize
    ensures { result ≡ first_changed byte_fill room.now from }
{
    first_other(room, FILL, from)
}

/// `rest same`, or `rest` and the place that was changed first, of a room of this length.
pub fn rest(out: &mut [u8], used: usize, changed: usize, length: usize) -> usize {
    let used = output::text(out, used, b"rest");
    if changed < length {
        let used = output::number(out, used, changed as u64);
        output::end(out, used)
    } else {
        output::text(out, used, b" same\n")
    }
}

/// The same of a room of bytes, from this place on.
pub fn rest_line(out: &mut [u8], used: usize, room: &[u8], from: usize) -> usize {
    rest(out, used, first_changed(room, from), room.len())
}
