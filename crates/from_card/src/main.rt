//! From a memory card: reads a stored list from standard input and writes the raw list that it says to standard output. Where it is refused nothing goes
//! there, and the line that says why goes to standard error. What is written is made first, and written at once.
#![tactic(auto)]

ghost use Rattle.std.specs.Prelude.{◌≤◌, ◌≡◌, ◌++◌, length, drop};
ghost use Rattle.from_card.specs.Printed.{refused, printed};

use listing::Output;

// The longest input that is looked at. No stored list that is taken comes near it: a raw list has at most 4,096 bytes, and its stored form 10 more.
const LONGEST: usize = 65536;

// One byte more, so that a longer input is seen to be one.
const INPUT: usize = LONGEST + 1;

// Puts what is to be written for a stored list at the front of a room.
fn put_printed(room: &mut [u8], stored: &[u8]) -> Output
    requires { 4096 ≤ length room.old }
    ensures refused_value { result.refused ≡ refused stored.now }
    ensures bytes_value { result.bytes ≡ length (printed stored.now) }
    ensures room_after { room.new ≡ printed stored.now ++ drop (length (printed stored.now)) room.old }
{
    let moved = card::from_card(stored, room);
    moving::put_moved(room, moved)
}

fn main(rt: HostRuntime) {
    let mut input = [0; INPUT];
    let Some(stored) = input::read_whole("from_card", &mut rt.stdin(), &mut rt.stderr(), &mut input)
    else {
        return;
    };
    if LONGEST < stored.len() {
        let _ = eprintln!(rt; "from_card: the input is longer than 65536 bytes");
        return;
    }
    let mut room = [0; walk::LONGEST];
    let output = put_printed(&mut room, stored);
    let made = &room[..output.bytes];
    if output.refused {
        let _ = rt.stderr().write_all(made);
        return;
    }
    input::write_whole("from_card", &mut rt.stdout(), &mut rt.stderr(), made);
}
