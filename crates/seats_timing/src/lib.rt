//! The jobs of the four seats that `speed/` measures, in a library by themselves: beside those of `timing` the compiler would no longer put what decides
//! and carries out a command into the loop of a run, for a turn asks for the same (speed/README.md). Each job does as those do, and folds as they fold.
#![tactic(auto)]

use bench::Bench;
use camera::Camera;
use seats::{Code, Queue, Seats, Tell};
use store::Store;
use timing::{Folded, command_of, mixed, with_bench, with_byte};
use wire::Command;

// How far apart the events of the seats begin, and where their parts lie (speed/plain.h): the seat, how many bytes are queued or commands wait, the bytes.
const EVENT: usize = 24;

const SEAT_AT: usize = 1;

const SIZE_AT: usize = 2;

const BYTES_AT: usize = 4;
// Those of a changed queue: the place of the changed command, how many were queued so far, and the command.
const PLACE_AT: usize = 3;

const QUEUED_AT: usize = 4;

const OPCODE_AT: usize = 8;

const FLAG_AT: usize = 10;

const FIRST_AT: usize = 12;

const SECOND_AT: usize = 16;
// Those of a changed bench: the camera's X, and whether macro 0 is closed.
const X_AT: usize = 2;

const CLOSED_AT: usize = 4;

// A command that nothing has judged.
const FLUSH: Command = Command {
    flag: false,
    kind: wire::Kind::TlmFlush,
};

fn with_bytes(sum: u64, bytes: &[u8]) -> u64 {
    let mut sum = sum;
    for &byte in bytes {
        sum = with_byte(sum, byte);
    }
    sum
}

// A command that waits, by its opcode too, as some kinds have no arguments.
fn with_waiting(sum: u64, command: Command) -> u64 {
    let row = wire::row_of(wire::parts_of(command.kind).form);
    mixed(command.folded(sum), u64::from(row.opcode))
}

// How many commands wait, how many were queued so far, and each that waits.
fn with_queue(sum: u64, queue: &Queue) -> u64 {
    let mut sum = mixed(mixed(sum, u64::from(queue.count)), u64::from(queue.queued));
    for &command in queue.commands.iter().take(queue.count as usize) {
        sum = with_waiting(sum, command);
    }
    sum
}

// The seat that was served last, the four queues, and the shared bench.
fn with_seats(sum: u64, seats: &Seats) -> u64 {
    let mut sum = mixed(sum, u64::from(seats.last));
    for queue in &seats.queues {
        sum = with_queue(sum, queue);
    }
    with_bench(sum, seats.bench)
}

// The bytes that an event queues, as many as it says.
fn queued_bytes(event: &[u8]) -> &[u8] {
    let end = BYTES_AT + words::byte_at(event, SIZE_AT) as usize;
    event.get(BYTES_AT..end).unwrap_or(event)
}

// Where the command begins that waits at this place of a seat's queue: the first event is seat 0's, the second seat 1's, and so on.
fn waiting_at(place: u8, seat: u8) -> usize {
    ((place as usize) * (seats::SEATS as usize) + seat as usize) * EVENT + BYTES_AT
}

// The queue of a seat for which its commands of these events wait.
fn queue_of(events: &[u8], seat: u8) -> Queue {
    let mut commands = [FLUSH; 32];
    let mut count: u8 = 0;
    for place in 0..32 {
        let at = waiting_at(place, seat);
        if events.len() <= at {
            break;
        }
        commands[place as usize] = command_of(&events[at..]);
        count = place + 1;
    }
    Queue {
        commands,
        count,
        queued: u32::from(count),
    }
}

// Four seats on a fresh bench, for which the commands of these events wait.
fn seats_with(events: &[u8]) -> Seats {
    Seats {
        queues: [
            queue_of(events, 0),
            queue_of(events, 1),
            queue_of(events, 2),
            queue_of(events, 3),
        ],
        ..Seats::fresh()
    }
}

/// Seats after some work, and what came out of it folded into one number.
#[derive(Clone, Copy)]
pub struct LaterSeats {
    pub seats: Seats,
    pub sum: u64,
}

impl LaterSeats {
    // The command of an event is queued; a refused one leaves the seats.
    fn queue(&mut self, event: &[u8]) {
        match self
            .seats
            .queue(words::byte_at(event, SEAT_AT), queued_bytes(event))
        {
            Ok(seats) => {
                self.seats = seats;
                self.sum = bench::plain(0).folded(self.sum);
            }
            Err(refusal) => self.sum = refusal.told().folded(self.sum),
        }
    }

    // A turn is taken; where none was served the seats stay. Its code is folded in, whether a command was carried out, and then the record.
    fn turn(&mut self) {
        match self.seats.turn() {
            Ok(Some(turned)) => {
                self.sum = with_bytes(mixed(mixed(self.sum, 0), 1), &turned.record);
                self.seats = turned.seats;
            }
            Ok(None) => self.sum = mixed(mixed(self.sum, 0), 0),
            Err(unsound) => self.sum = mixed(mixed(self.sum, u64::from(unsound.code())), 0),
        }
    }
}

// The command of each event is queued.
fn queueing(seats: Seats, sum: u64, events: &[u8]) -> LaterSeats {
    let mut later = LaterSeats { seats, sum };
    for i in 0..events.len() / EVENT {
        later.queue(&events[i * EVENT..]);
    }
    later
}

/// So many times over, the commands of all events are queued where those of the first list wait; then the last seats.
pub fn timing_queue(waiting: &[u8], events: &[u8], times: u32) -> u64 {
    let start = seats_with(waiting);
    let mut last = start;
    let mut sum: u64 = 0;
    for _ in 0..times {
        let done = queueing(start, sum, events);
        last = done.seats;
        sum = done.sum;
    }
    with_seats(sum, &last)
}

// So many turns are taken.
fn turning(seats: Seats, sum: u64, turns: u32) -> LaterSeats {
    let mut later = LaterSeats { seats, sum };
    for _ in 0..turns {
        later.turn();
    }
    later
}

/// So many times over, so many turns are taken where the commands of these events wait; then the last seats.
pub fn timing_turn(waiting: &[u8], turns: u32, times: u32) -> u64 {
    let start = seats_with(waiting);
    let mut last = start;
    let mut sum: u64 = 0;
    for _ in 0..times {
        let done = turning(start, sum, turns);
        last = done.seats;
        sum = done.sum;
    }
    with_seats(sum, &last)
}

// A command of this opcode, flag and arguments, which nothing has judged; a flush where there is no such opcode.
fn unjudged(opcode: u16, flag: bool, first: u32, second: u32) -> Command {
    match wire::rule_of(opcode) {
        Some((form, _)) => Command {
            flag,
            kind: wire::kind_of(form, first, second),
        },
        None => Command { flag, ..FLUSH },
    }
}

// A queue is given another count and number of commands queued so far and, in one of its places, another command; past the last place, none.
fn changed_queue(queue: Queue, event: &[u8]) -> Queue {
    let mut commands = queue.commands;
    let place = words::byte_at(event, PLACE_AT) as usize;
    if place < seats::LONGEST {
        commands[place] = unjudged(
            words::half_at(event, OPCODE_AT),
            words::byte_at(event, FLAG_AT) == 1,
            words::word_at(event, FIRST_AT),
            words::word_at(event, SECOND_AT),
        );
    }
    Queue {
        commands,
        count: words::byte_at(event, SIZE_AT),
        queued: words::word_at(event, QUEUED_AT),
    }
}

// The same in the queue of a seat.
fn with_changed_queue(seats: Seats, event: &[u8]) -> Seats {
    let mut queues = seats.queues;
    let at = (words::byte_at(event, SEAT_AT) % seats::SEATS) as usize;
    queues[at] = changed_queue(queues[at], event);
    Seats { queues, ..seats }
}

// Another seat was served last, the camera has another X, and macro 0 is closed or not.
fn with_changed_bench(seats: Seats, event: &[u8]) -> Seats {
    let camera = Camera {
        x: words::half_at(event, X_AT),
        ..seats.bench.camera
    };
    let mut closed = seats.bench.store.closed;
    closed[0] = words::byte_at(event, CLOSED_AT) == 1;
    let store = Store {
        closed,
        ..seats.bench.store
    };
    let bench = Bench {
        camera,
        store,
        ..seats.bench
    };
    Seats {
        bench,
        last: words::byte_at(event, SEAT_AT),
        ..seats
    }
}

impl LaterSeats {
    // One event: a queueing, a turn, or a change of the state itself, as no call makes it.
    fn event(&mut self, event: &[u8]) {
        match words::byte_at(event, 0) {
            0 => self.queue(event),
            1 => self.turn(),
            2 => self.seats = with_changed_queue(self.seats, event),
            _ => self.seats = with_changed_bench(self.seats, event),
        }
    }
}

/// Four seats on a fresh bench, and all these events one after another; the whole state behind each.
pub fn timing_seats(events: &[u8]) -> u64 {
    let mut later = LaterSeats {
        seats: Seats::fresh(),
        sum: 0,
    };
    for i in 0..events.len() / EVENT {
        later.event(&events[i * EVENT..]);
        later.sum = with_seats(later.sum, &later.seats);
    }
    later.sum
}
