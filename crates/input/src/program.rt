//! What each program does around its work: it reads its input whole, and hands over what it made of it, or says why it cannot.
ghost use Rattle.std.specs.Prelude.{◌≤◌, length, IfSome};

use super::read_input;
use std::io::{Read, Write};

// The room of a line that says what failed: a program's name and some words.
const LINE: usize = 128;

// A line in a program's name that says what failed, written at once, so that no other program's line comes between its parts; a line that is longer than
// its room goes part by part.
fn say<W: Write>(program: &str, failed: &str, errors: &mut W) {
    let mut line = [0; LINE];
    let mut rest = &mut line[..];
    let whole = writeln!(rest, "{program}: {failed}").is_ok();
    let put = LINE.saturating_sub(rest.len());
    if whole {
        let _ = errors.write_all(&line[..put]);
    } else {
        let _ = writeln!(errors, "{program}: {failed}");
    }
}

/// All that a reader has, in the front of a room. Where it cannot be read, a line in the program's name says so, and there is nothing.
pub fn read_whole<'a, R: Read, W: Write>(
    program: &str,
    reader: &mut R,
    errors: &mut W,
    room: &'a mut [u8],
) -> Option<&'a [u8]>
    ensures { IfSome result (λ read. length read.now ≤ length room.old) }
{
    let Ok(bytes) = read_input(reader, room) else {
        say(program, "standard input cannot be read", errors);
        return None;
    };
    Some(&room[..bytes])
}

/// Writes what a program made, and says whether that could be done; where it could not, a line in the program's name says so.
pub fn write_whole<O: Write, W: Write>(
    program: &str,
    output: &mut O,
    errors: &mut W,
    made: &[u8],
) -> bool {
    if output.write_all(made).is_err() {
        say(program, "standard output cannot be written", errors);
        return false;
    }
    true
}
