//! To a memory card: reads a raw list from standard input and writes its stored form to standard output. Where the list is refused nothing goes there,
//! and the line that says why goes to standard error. What is written is made first, and written at once.
#![tactic(auto)]

ghost use Rattle.std.specs.Prelude.{◌≤◌, ◌≡◌, ◌++◌, length, drop};
ghost use Rattle.to_card.specs.Printed.{refused, printed};

use listing::Output;

// A list of the longest and one byte more, so that a longer list is seen to be one.
const INPUT: usize = walk::LONGEST + 1;

// No stored list is more than 10 bytes longer than its raw list.
const STORED: usize = walk::LONGEST + 10;

// Puts what is to be written for a raw list at the front of a room.
fn put_printed(room: &mut [u8], raw: &[u8]) -> Output
    requires { 4106 ≤ length room.old }
    ensures refused_value { result.refused ≡ refused raw.now }
    ensures bytes_value { result.bytes ≡ length (printed raw.now) }
    ensures room_after { room.new ≡ printed raw.now ++ drop (length (printed raw.now)) room.old }
{
    let moved = card::to_card(raw, room);
    moving::put_moved(room, moved)
}

fn main(rt: HostRuntime) {
    let mut input = [0; INPUT];
    let Some(raw) = input::read_whole("to_card", &mut rt.stdin(), &mut rt.stderr(), &mut input)
    else {
        return;
    };
    let mut room = [0; STORED];
    let output = put_printed(&mut room, raw);
    let made = &room[..output.bytes];
    if output.refused {
        let _ = rt.stderr().write_all(made);
        return;
    }
    input::write_whole("to_card", &mut rt.stdout(), &mut rt.stderr(), made);
}
