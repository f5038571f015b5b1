//! What the test programs share. Each takes a script of items from standard input, hands their bytes to the libraries that it tries, and prints what
//! they answer: reading the script, stretches of it, where a program stands in it, lent rooms, and the transcript.
#![tactic(auto)]

ghost use Rattle.io.specs.Counts.{IsPrefixLen};

pub mod offsets;
pub mod output;
mod place;
pub mod rooms;
mod stretches;

pub use place::Place;
pub use stretches::{Stretch, bytes, front, none, take, take_long, take_short};

// Is there a byte more to read?
fn has_more() -> bool {
    let mut next = [0u8; 1];
    io::read_full(0, &mut next) != 0
}

/// Reads the script into the front of a room, and says how many bytes it has. Of one that is longer than the room nothing is taken: `too long` is
/// printed, and the script counts as empty.
pub fn read(room: &mut [u8]) -> usize
    ensures { IsPrefixLen result room.new }
{
    let count = io::read_full(0, room);
    if has_more() {
        io::write_all(1, b"too long\n");
        return 0;
    }
    count
}
