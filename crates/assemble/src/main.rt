//! The assembler: reads a typed list from standard input and writes the raw list that it says to standard output. Where the text is refused nothing
//! goes there, and the line that says why goes to standard error. What is written is made first, and written at once.
#![tactic(auto)]

ghost use Rattle.std.specs.Prelude.{◌≤◌, ◌≡◌, ◌++◌, length, drop};
ghost use Rattle.assemble.specs.Printed.{refused, printed};

use listing::{Numbered, Output};

// A text of the longest and one byte more, so that a longer text is seen to be one.
const INPUT: usize = text::LONGEST + 1;

fn input_room() -> [u8; INPUT]
    ensures { 32769 ≡ length result }
{
    [0; INPUT]
}

fn list_room() -> [u8; walk::LONGEST]
    ensures { 4096 ≡ length result }
{
    [0; walk::LONGEST]
}

// Puts what is to be written for a typed list at the front of a room.
fn put_printed(room: &mut [u8], typed: &[u8]) -> Output
    requires { 4096 ≤ length room.old }
    ensures refused_value { result.refused ≡ refused typed.now }
    ensures bytes_value { result.bytes ≡ length (printed typed.now) }
    ensures room_after { room.new ≡ printed typed.now ++ drop (length (printed typed.now)) room.old }
{
    let made = text::assemble(typed, room);
    listing::put_outcome(
        room,
        Numbered::Lines,
        text::finding_of(&made),
        made.unwrap_or(0),
    )
}

fn main(rt: HostRuntime) {
    let mut typed = input_room();
    let Some(read) = input::read_whole("assemble", &mut rt.stdin(), &mut rt.stderr(), &mut typed)
    else {
        return;
    };
    let mut room = list_room();
    let output = put_printed(&mut room, read);
    let put = &room[..output.bytes];
    if output.refused {
        let _ = rt.stderr().write_all(put);
    } else {
        input::write_whole("assemble", &mut rt.stdout(), &mut rt.stderr(), put);
    }
}
