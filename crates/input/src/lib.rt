//! What a program reads, from the reader that it lends, which is standard input: as much of it as a room takes, and whether it could be read. A program
//! whose room is one byte longer than what it takes sees that there is more.
#![tactic(auto)]

ghost use Rattle.std.specs.Prelude.{◌≤◌, length, IfOk, IfErr};

mod program;

pub use program::{read_whole, write_whole};
use std::io::Read;

/// A read failed. The bytes that were read before it must not be taken for the whole.
#[derive(Clone, Copy, Debug, PartialEq, Eq)]
pub struct Unread {
    pub bytes: usize,
}

/// Reads into the front of a room, until the room is full or the input ends, and says how many bytes there are.
///
/// # Errors
/// A read failed: how many bytes were read by then.
pub fn read_input<R: Read>(reader: &mut R, room: &mut [u8]) -> Result<usize, Unread>
    ensures read { IfOk result (λ bytes. bytes ≤ length room.new) }
    ensures unread { IfErr result (λ cut. cut.bytes ≤ length room.new) }
{
    let mut bytes = 0;
    // Each turn goes on by as many bytes as a read gave, so no iterator counts them.
    while bytes < room.len() {
        match reader.read(&mut room[bytes..]) {
            Ok(0) => break,
            Ok(more) => bytes += more,
            Err(_) => return Err(Unread { bytes }),
        }
    }
    Ok(bytes)
}
