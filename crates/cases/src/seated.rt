//! The four-seat bench, made by hand as `seating` has it. `queue`, whose line has a seat, a size and so many bytes in front, queues a command; `turn` takes a
//! turn; `seats` gives the seats to every call that takes them, a FLUSH to queue for seat 0 among them. Each answers with its code, and with what it changed.
use super::{asking, compare, lines, say, seating, telling};
use bench::{Bench, Unsound};
use seats::{Queue, Refusal, SEATS, Seats, Turned};
use wire::Command;

// Where in a line of `queue` the bytes begin.
const BYTES: usize = 2;

// One command that waits, behind those before it; a `+` stands for the flag.
fn command(i: usize, command: Command) {
    if 0 < i {
        say::text(b"; ");
    }
    if command.flag {
        say::text(b"+");
    }
    say::kind(command.kind);
}

fn commands(queue: &Queue) {
    let waiting = queue.commands.iter().take(queue.count as usize);
    for (i, next) in waiting.enumerate() {
        command(i, *next);
    }
}

// The queue of a seat, where it is another than before.
fn queue_after(seat: u8, before: &Queue, after: &Queue) {
    if compare::same_queue(before, after) {
        return;
    }
    say::field8(b", seat ", seat);
    say::field(b" queued ", u64::from(after.queued));
    say::field8(b" waiting ", after.count);
    if 0 < after.count {
        say::text(b": ");
        commands(after);
    }
}

// The bench, where it is another than before.
fn bench_after(before: &Bench, after: &Bench) {
    if compare::same(before, after) {
        return;
    }
    telling::status(b", bench ", *after);
    telling::free(b", free ", *after);
}

// What is another than before: the last seat, queues, the bench.
fn changed(before: &Seats, after: &Seats) {
    if before.last != after.last {
        say::field8(b", last ", after.last);
    }
    for seat in 0..SEATS {
        let at = usize::from(seat);
        queue_after(seat, &before.queues[at], &after.queues[at]);
    }
    bench_after(&before.bench, &after.bench);
}

// The seats after a call: as they came, or what is another.
fn afterwards(before: &Seats, after: &Seats) {
    if compare::same_seats(before, after) {
        say::text(b", same");
    } else {
        changed(before, after);
    }
}

fn queued(before: Seats, queued: Result<Seats, Refusal>) {
    say::told(bench::told_of(&queued));
    afterwards(&before, &queued.unwrap_or(before));
}

/// `queue`: a command from bytes, for a seat.
pub fn queue(b: Bench, s: &[u8]) {
    let end = BYTES + words::byte_at(s, 1) as usize;
    let seats = seating::seats(b, lines::rest(s, end));
    queued(
        seats,
        seats.queue(words::byte_at(s, 0), lines::part(s, BYTES, end)),
    );
}

// What a turn answers: its code, whether a command was carried out, and the bytes of the record, zeros where there is none.
fn turned(before: Seats, turned: Result<Option<Turned>, Unsound>) {
    say::field8(b"code ", bench::code_of(&turned));
    match turned {
        Ok(Some(done)) => {
            say::text(b" record ");
            say::hex(&done.record);
            afterwards(&before, &done.seats);
        }
        _ => {
            say::text(b" none ");
            say::hex(&[0; report::RECORD]);
            afterwards(&before, &before);
        }
    }
}

/// `turn`: the next waiting seat is served.
pub fn turn(b: Bench, s: &[u8]) {
    let seats = seating::seats(b, s);
    turned(seats, seats.turn());
}

fn second(seats: Seats) {
    match seats.second() {
        Ok(done) => {
            asking::passed(&done.group, &done.codes);
            afterwards(&seats, &done.seats);
        }
        Err(refused) => {
            asking::not_passed(refused);
            afterwards(&seats, &seats);
        }
    }
}

/// `seats`: sound or not, and the answer of every call.
pub fn each(b: Bench, s: &[u8]) {
    let seats = seating::seats(b, s);
    if seats.is_sound() {
        say::text(b"sound; queue ");
    } else {
        say::text(b"not sound; queue ");
    }
    queued(seats, seats.queue(0, b"\x01\x5a\x00\x02\x01\x5a\x00\x02"));
    say::text(b"; turn ");
    turned(seats, seats.turn());
    say::text(b"; second ");
    second(seats);
    say::text(b"; ");
    telling::told(seats.status());
}
