//! Rescue: reads a damaged list from standard input, and writes the commands in it that codes 1 to 8 let pass to standard output. For each stretch of bytes
//! that was skipped a line goes to standard error. Where the list is too long nothing goes to standard output, and the line that says so to standard error.
#![tactic(auto)]

ghost use Rattle.std.specs.Prelude.{◌+◌, ◌*◌, ◌/◌, ◌≤◌, ◌≡◌, ◌++◌, length, drop};
ghost use Rattle.std.proofs.lemmas.List.Edits.{sets};
ghost use Rattle.rescue_list.specs.Printed.{printed, noted};
ghost use Rattle.rescue_list.specs.Steps.{line_with, lines_to};

use listing::Numbered;
use text::Finding;
use words::{Code, Writer};

// A list of the longest and one byte more, so that a longer list is seen to be one.
const INPUT: usize = walk::LONGEST + 1;

// The bytes of the longest line: two numbers of 16 bits have five digits each at most.
const LINE: usize = 20;

// Room for the lines of all stretches that a list can have.
const NOTES: usize = rescue::MOST * LINE;

// Where the length stands in a stretch of a table, behind its start.
const LENGTH_AT: usize = 2;

// How many bytes go to standard output, and how many to standard error.
#[derive(Drop)]
struct Output {
    printed: usize,
    noted: usize,
}

fn input_room() -> [u8; INPUT]
    ensures { 4097 ≡ length result }
{
    [0; INPUT]
}

fn list_room() -> [u8; walk::LONGEST]
    ensures { 4096 ≡ length result }
{
    [0; walk::LONGEST]
}

fn notes_room() -> [u8; NOTES]
    ensures { 9120 ≡ length result }
{
    [0; NOTES]
}

// Puts the line of a stretch into a room, from a place on, and says which place comes next.
fn put_line(room: &mut [u8], at: usize, start: u32, size: u32) -> usize
    requires { at + length (line_with start size) ≤ length room.old }
    ensures value { result ≡ at + length (line_with start size) }
    ensures room_after { room.new ≡ sets room.old at (line_with start size) }
{
    let mut line = Writer { room, at };
    line.text(b"skipped ");
    line.number(start);
    line.text(b" ");
    line.number(size);
    line.text(b"\n");
    line.at
}

// Puts a line for each whole stretch of a table at the front of a room, and says how many bytes they have.
fn put_lines(room: &mut [u8], table: &[u8]) -> usize
    requires { length table.now / 4 * 20 ≤ length room.old }
    ensures value { result ≡ length (lines_to table.now (length table.now / 4)) }
    ensures room_after { room.new ≡ sets room.old 0 (lines_to table.now (length table.now / 4)) }
{
    let mut at: usize = 0;
    for place in 0..table.len() / rescue::STRETCH {
        let stretch_at = place * rescue::STRETCH;
        let start = words::half_at(table, stretch_at) as u32;
        let size = words::half_at(table, stretch_at + LENGTH_AT) as u32;
        at = put_line(room, at, start, size);
    }
    at
}

// Puts what goes to standard output for a damaged list at the front of one room, and what goes to standard error at the front of another.
fn put_printed(room: &mut [u8], notes: &mut [u8], list: &[u8]) -> Output
    requires in_bounds { 4096 ≤ length room.old }
    requires in_bounds_2 { 9120 ≤ length notes.old }
    ensures printed_value { result.printed ≡ length (printed list.now) }
    ensures noted_value { result.noted ≡ length (noted list.now) }
    ensures room_after { room.new ≡ printed list.now ++ drop (length (printed list.now)) room.old }
    ensures notes_after { notes.new ≡ noted list.now ++ drop (length (noted list.now)) notes.old }
{
    let mut table = [0u8; rescue::TABLE];
    match rescue::rescue(list, room, &mut table) {
        Ok(done) => Output {
            printed: done.kept,
            noted: put_lines(notes, &table[..done.table()]),
        },
        Err(refusal) => {
            let told = wire::plain(refusal.code());
            let found = Finding { told, number: 0 };
            Output {
                printed: 0,
                noted: listing::put_refusal(notes, Numbered::Commands, found).unwrap_or(0),
            }
        }
    }
}

fn main(rt: HostRuntime) {
    let mut list = input_room();
    let Some(read) = input::read_whole("rescue_list", &mut rt.stdin(), &mut rt.stderr(), &mut list)
    else {
        return;
    };
    let mut room = list_room();
    let mut notes = notes_room();
    let output = put_printed(&mut room, &mut notes, read);
    let kept = &room[..output.printed];
    if input::write_whole("rescue_list", &mut rt.stdout(), &mut rt.stderr(), kept) {
        let _ = rt.stderr().write_all(&notes[..output.noted]);
    }
}
