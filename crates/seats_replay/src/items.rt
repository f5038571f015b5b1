//! The items of a script. The first byte of one says what it is; its function says what follows, and what it prints. An item that is cut off, or has
//! another first byte, prints `bad script` and ends the program.
use super::{queueing, shared, turns};
use script::Place;
use seats::Seats;

/// The seats, and where the program stands in the script.
#[derive(Clone, Copy)]
pub struct State {
    pub seats: Seats,
    pub place: Place,
}

impl State {
    /// Fresh seats, before the first item.
    pub fn fresh() -> State {
        State {
            seats: Seats::fresh(),
            place: Place::start(),
        }
    }

    /// Is there another item to take?
    pub fn goes_on(&self, s: &[u8]) -> bool {
        self.place.goes_on(s)
    }

    // 04: a fresh bench with four empty queues again; nothing is printed.
    fn renew(&mut self) {
        self.seats = Seats::fresh();
    }
}

/// Takes one item. The state is lent, so that the seats are not copied where they stay.
pub fn item(state: &mut State, s: &[u8], out: &mut [u8]) {
    let first = script::take(s, state.place.at, 1);
    state.place = state.place.answered(first.to, state.place.used);
    match words::byte_at(s, first.from) {
        0 => shared::second(state, out),
        1 => queueing::queue(state, s, out),
        2 => shared::status(state, out),
        3 => turns::turn(state, out),
        4 => state.renew(),
        _ => state.place = state.place.bad(out),
    }
}
