//! Rooms of offsets, which are numbers of 16 bits: what one holds at first, offsets read from bytes, and the first that is not as it was.
ghost use Rattle.std.specs.Prelude.{◌≡◌};
ghost use Rattle.io.specs.Counts.{IsPrefixLen};
ghost use Rattle.script.specs.Rooms.{offset_fill, first_changed};

use super::rooms::first_other;

/// What a room of offsets holds at first.
pub const FILL: u16 = 0xaaaa;

/// The bytes of an offset.
pub const SIZE: usize = 2;

/// Puts the offsets that these bytes say at the front of a room, as many as it takes, and says how many there are.
pub fn read(bytes: &[u8], room: &mut [u16]) -> usize
    ensures { IsPrefixLen result room.new }
{
    let count = room.len().min(bytes.len() / SIZE);
    for i in 0..count {
        room[i] = words::half_at(bytes, i * SIZE);
    }
    count
}

/// Where the first offset from this place on stands that is not as it was; behind the room where all are.
pub fn first_changed(room: &[u16], from: usize) -> usize
    ensures { result ≡ first_changed offset_fill room.now from }
{
    first_other(room, FILL, from)
}
