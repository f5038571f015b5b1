//! Four seats made by hand, whatever the rules say, around the bench of the lines: the last seat; of each seat how many commands wait, then of each how many it
//! has queued so far; then commands, each behind its seat and its place. Any other place holds a region of these two numbers, so that no two are alike.
ghost use Rattle.std.specs.Prelude.{◌<◌};

use super::{decoded, lines};
use bench::Bench;
use seats::{LONGEST, Queue, SEATS, Seats};
use std::array;
use wire::{Command, Kind};

// Where in a line the counts begin, what the seats have queued so far, and the commands.
const COUNTS: usize = 1;

const QUEUED: usize = 5;

const COMMANDS: usize = 21;

// Seat and place of a command, and then all that it takes.
const HEAD: usize = 2;

const COMMAND: usize = 13;

// The command at a place where the line puts no other.
fn region(seat: usize, place: usize) -> Command
    requires seat_small { seat < 4 }
    requires place_small { place < 32 }
{
    Command {
        flag: false,
        kind: Kind::ImgRegion(seat as u16, place as u16),
    }
}

// The queue of a seat, before commands are put into it.
fn queue(s: &[u8], seat: usize) -> Queue
    requires { seat < 4 }
{
    Queue {
        commands: array::from_fn(|place| region(seat, place)),
        count: words::byte_at(s, COUNTS + seat),
        queued: words::word_at(s, QUEUED + seat * words::WORD),
    }
}

// The seats with a command put into its queue.
fn with_command(seats: Seats, s: &[u8]) -> Seats {
    let mut queues = seats.queues;
    let seat = usize::from(words::byte_at(s, 0) % SEATS);
    let place = usize::from(words::byte_at(s, 1)) % LONGEST;
    queues[seat].commands[place] = decoded::command(lines::rest(s, HEAD));
    Seats { queues, ..seats }
}

/// The seats that a line says.
pub fn seats(bench: Bench, s: &[u8]) -> Seats {
    let mut seats = Seats {
        bench,
        queues: array::from_fn(|seat| queue(s, seat)),
        last: words::byte_at(s, 0),
    };
    for event in lines::rest(s, COMMANDS).chunks(COMMAND) {
        seats = with_command(seats, event);
    }
    seats
}
