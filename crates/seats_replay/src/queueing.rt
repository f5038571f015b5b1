//! The item in which a seat queues a command: 01.
use super::items::State;
use script::output;
use seats::Told;

fn queued_line(out: &mut [u8], used: usize, told: Told) -> usize {
    let used = output::text(out, used, b"queued");
    let used = tellings::told(out, used, told);
    output::end(out, used)
}

/// 01, a seat and the bytes of a command: `queued CODE PAR VALUE LOW HIGH`.
pub fn queue(state: &mut State, s: &[u8], out: &mut [u8]) {
    let place = state.place;
    let seat = script::take(s, place.at, 1);
    let bytes = script::take_short(s, seat.to);
    if !bytes.whole {
        state.place = place.bad(out);
        return;
    }
    let seat = words::byte_at(s, seat.from);
    let queued = state.seats.queue(seat, script::bytes(s, bytes));
    let used = queued_line(out, place.used, seats::told_of(&queued));
    if let Ok(seats) = queued {
        state.seats = seats;
    }
    state.place = place.answered(bytes.to, used);
}
