//! The items of the shared bench: 00 lets a second pass, 02 prints the status frame.
use super::items::State;

/// 00: `second CODE N`, and a line `handed CODE NAME ARGS` for each of the N entries.
pub fn second(state: &mut State, out: &mut [u8]) {
    let place = state.place;
    let used = match state.seats.second() {
        Ok(passed) => {
            state.seats = passed.seats;
            answers::second(out, place.used, &passed.group, &passed.codes)
        }
        Err(unsound) => answers::no_second(out, place.used, unsound),
    };
    state.place = place.answered(place.at, used);
}

/// 02: `status` and the bytes of the frame, or `status CODE`.
pub fn status(state: &mut State, out: &mut [u8]) {
    let place = state.place;
    let used = answers::status(out, place.used, &state.seats.status());
    state.place = place.answered(place.at, used);
}
