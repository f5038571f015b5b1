//! The items of a script. The first byte of one says what it is; its function says what follows, and what it prints. An item that is cut off, or has
//! another first byte, prints `bad script` and ends the program.
use super::frames;
use script::Place;
use valve::Valve;

/// The valve, and where the program stands in the script.
#[derive(Clone, Copy, Debug, PartialEq, Eq)]
pub struct State {
    pub valve: Valve,
    pub place: Place,
}

impl State {
    /// A fresh valve, before the first item.
    pub fn fresh() -> State {
        State {
            valve: Valve::fresh(),
            place: Place::start(),
        }
    }

    /// Is there another item to take?
    pub fn goes_on(self, s: &[u8]) -> bool {
        self.place.goes_on(s)
    }

    // 00: a fresh valve again; nothing is printed.
    fn renewed(self) -> State {
        State {
            valve: Valve::fresh(),
            ..self
        }
    }

    /// After an item that left the valve as it was.
    pub fn went_on(self, place: Place) -> State {
        State { place, ..self }
    }
}

/// Takes one item.
pub fn item(state: State, s: &[u8], out: &mut [u8]) -> State {
    let first = script::take(s, state.place.at, 1);
    let place = state.place.answered(first.to, state.place.used);
    let state = state.went_on(place);
    match words::byte_at(s, first.from) {
        0 => state.renewed(),
        1 => frames::carry_out(state, s, out),
        2 => state.went_on(frames::read(place, s, out)),
        _ => state.went_on(place.bad(out)),
    }
}
