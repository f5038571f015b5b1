//! The lister: reads a raw list from standard input and writes the text that says it to standard output. Where the list is refused nothing goes
//! there, and the line that says why goes to standard error. What is written is made first, and written at once.
#![tactic(auto)]

ghost use Rattle.std.specs.Prelude.{◌≤◌, ◌≡◌, ◌++◌, length, drop};
ghost use Rattle.lister.specs.Printed.{refused, printed};

use listing::{Numbered, Output};

// A list of the longest and one byte more, so that a longer list is seen to be one.
const INPUT: usize = walk::LONGEST + 1;

// No text is more than twice as long as its list.
const TEXT: usize = 2 * walk::LONGEST;

fn input_room() -> [u8; INPUT]
    ensures { 4097 ≡ length result }
{
    [0; INPUT]
}

fn text_room() -> [u8; TEXT]
    ensures { 8192 ≡ length result }
{
    [0; TEXT]
}

// Puts what is to be written for a raw list at the front of a room.
fn put_printed(room: &mut [u8], raw: &[u8]) -> Output
    requires { 8192 ≤ length room.old }
    ensures refused_value { result.refused ≡ refused raw.now }
    ensures bytes_value { result.bytes ≡ length (printed raw.now) }
    ensures room_after { room.new ≡ printed raw.now ++ drop (length (printed raw.now)) room.old }
{
    let made = text::list_text(raw, room);
    listing::put_outcome(
        room,
        Numbered::Commands,
        text::finding_of(&made),
        made.unwrap_or(0),
    )
}

fn main(rt: HostRuntime) {
    let mut raw = input_room();
    let Some(read) = input::read_whole("lister", &mut rt.stdin(), &mut rt.stderr(), &mut raw) else {
        return;
    };
    let mut room = text_room();
    let output = put_printed(&mut room, read);
    let put = &room[..output.bytes];
    if output.refused {
        let _ = rt.stderr().write_all(put);
    } else {
        input::write_whole("lister", &mut rt.stdout(), &mut rt.stderr(), put);
    }
}
