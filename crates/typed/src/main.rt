//! The program for pupils: reads a typed list from standard input, runs the kit's list and then the typed one on a fresh bench, and prints the report,
//! in which the pupil's numbers are lines of the text, or one line where the text was refused. The whole text is made first, and written at once.
#![tactic(auto)]

ghost use Rattle.std.specs.Prelude.{◌≡◌, ◌≤◌, ◌++◌, length, drop};
ghost use Rattle.report.specs.Record.{report_room};
ghost use Rattle.listing.specs.Text.{text_room};
ghost use Rattle.typed.specs.Printed.{printed};

use bench::Bench;
use listing::Numbered;

// A text of the longest and one byte more, so that a longer text is seen to be one.
const INPUT: usize = text::LONGEST + 1;

// Puts what is to be printed for a typed list at the front of a room, and says how many bytes that is.
fn put_printed(room: &mut [u8], typed: &[u8]) -> usize
    requires { text_room report_room ≤ length room.old }
    ensures value { result ≡ length (printed typed.now) }
    ensures room_after { room.new ≡ printed typed.now ++ drop (length (printed typed.now)) room.old }
{
    let kit = listing::kit_list();
    let mut records = [0; report::ROOM];
    let bench = Bench::fresh();
    let ran = bench.run_typed(&kit, typed, &mut records);
    let found = bench::finding_of(&ran);
    match ran {
        Err(_) => listing::put_refusal(room, Numbered::Lines, found).unwrap_or(0),
        Ok(ran) => {
            let end = (ran.kit as usize + ran.pupil as usize) * report::RECORD;
            listing::put_report(room, &records[..end]).unwrap_or(0)
        }
    }
}

fn main(rt: HostRuntime) {
    let mut input = [0; INPUT];
    let Some(typed) = input::read_whole("typed", &mut rt.stdin(), &mut rt.stderr(), &mut input)
    else {
        return;
    };
    let mut room = [0; listing::TEXT];
    let put = put_printed(&mut room, typed);
    input::write_whole("typed", &mut rt.stdout(), &mut rt.stderr(), &room[..put]);
}
