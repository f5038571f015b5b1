//! The list program: reads the pupil's raw list from standard input, runs the kit's list and then the pupil's on a fresh bench, and prints the report,
//! or one line where the run was refused. The whole text is made first, and written at once.
#![tactic(auto)]

ghost use Rattle.std.specs.Prelude.{◌≡◌, ◌≤◌, ◌++◌, length, drop};
ghost use Rattle.report.specs.Record.{report_room};
ghost use Rattle.listing.specs.Text.{text_room};
ghost use Rattle.list.specs.Printed.{printed};

use bench::Bench;
use listing::Numbered;

// A list of the longest and one byte more, so that a longer list is seen to be one.
const INPUT: usize = walk::LONGEST + 1;

// Puts what is to be printed for a pupil's list at the front of a text, and says how many bytes that is.
fn put_printed(text: &mut [u8], pupil: &[u8]) -> usize
    requires { text_room report_room ≤ length text.old }
    ensures value { result ≡ length (printed pupil.now) }
    ensures text_after { text.new ≡ printed pupil.now ++ drop (length (printed pupil.now)) text.old }
{
    let kit = listing::kit_list();
    let mut records = [0; report::ROOM];
    let bench = Bench::fresh();
    let ran = bench.run(&kit, pupil, &mut records);
    let code = bench::code_of(&ran);
    match ran {
        Err(_) => listing::put_refusal(text, Numbered::Lines, text::of_whole(code)).unwrap_or(0),
        Ok(ran) => {
            let end = (ran.kit as usize + ran.pupil as usize) * report::RECORD;
            listing::put_report(text, &records[..end]).unwrap_or(0)
        }
    }
}

fn main(rt: HostRuntime) {
    let mut input = [0; INPUT];
    let Some(pupil) = input::read_whole("list", &mut rt.stdin(), &mut rt.stderr(), &mut input)
    else {
        return;
    };
    let mut text = [0; listing::TEXT];
    let put = put_printed(&mut text, pupil);
    input::write_whole("list", &mut rt.stdout(), &mut rt.stderr(), &text[..put]);
}
