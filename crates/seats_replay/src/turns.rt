//! The item in which the next waiting seat is served: 03.
use super::items::State;
use script::output;
use seats::{Turned, Unsound};

// The code, and the end of the line: the record of the command that was carried out, or none.
fn turn_line(out: &mut [u8], used: usize, turned: &Result<Option<Turned>, Unsound>) -> usize {
    let used = output::text(out, used, b"turn");
    let used = output::number(out, used, u64::from(seats::code_of(turned)));
    match turned {
        Ok(Some(turned)) => output::bytes_line(out, used, b" record", &turned.record),
        _ => output::text(out, used, b" none\n"),
    }
}

/// 03: `turn CODE none`, or `turn 0 record` and the bytes of the record.
pub fn turn(state: &mut State, out: &mut [u8]) {
    let place = state.place;
    let turned = state.seats.turn();
    let used = turn_line(out, place.used, &turned);
    if let Ok(Some(turned)) = turned {
        state.seats = turned.seats;
    }
    state.place = place.answered(place.at, used);
}
