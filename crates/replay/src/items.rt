//! The items of a script. The first byte of one says what it is; its function says what follows, and what it prints: one line, where nothing else
//! is said. An item that is cut off, or has another first byte, prints `bad script` and ends the replay.
use super::{commands, frames, lists, seconds, tags, texts};
use bench::Bench;
use script::Place;

/// The bench, and where the replay stands in the script.
#[derive(Clone, Copy)]
pub struct State {
    pub bench: Bench,
    pub place: Place,
}

impl State {
    /// A fresh bench, before the first item.
    pub fn fresh() -> State {
        State {
            bench: Bench::fresh(),
            place: Place::start(),
        }
    }

    /// Is there another item to take?
    pub fn goes_on(&self, s: &[u8]) -> bool {
        self.place.goes_on(s)
    }

    // 04: a fresh bench again; nothing is printed.
    fn renew(&mut self) {
        self.bench = Bench::fresh();
    }
}

/// What an item has that begins with a room's length of one byte and some bytes, and where it ends.
#[derive(Clone, Copy)]
pub struct Lent<'a> {
    pub length: u8,
    pub bytes: &'a [u8],
    pub end: usize,
}

/// Takes these; nothing where the script does not have them whole.
pub fn take_lent(s: &[u8], at: usize) -> Option<Lent<'_>> {
    let length = script::take(s, at, 1);
    let bytes = script::take_short(s, length.to);
    bytes.whole.then(|| Lent {
        length: words::byte_at(s, length.from),
        bytes: script::bytes(s, bytes),
        end: bytes.to,
    })
}

/// What an item has that runs two lists: the length of the room, the kit's list and the pupil's or a text, and where it ends.
#[derive(Clone, Copy)]
pub struct Lists<'a> {
    pub length: u16,
    pub kit: &'a [u8],
    pub pupil: &'a [u8],
    pub end: usize,
}

/// Takes these; nothing where the script does not have them whole.
pub fn two_lists(s: &[u8], at: usize) -> Option<Lists<'_>> {
    let length = script::take(s, at, 2);
    let kit = script::take_long(s, length.to);
    let pupil = script::take_long(s, kit.to);
    pupil.whole.then(|| Lists {
        length: words::half_at(s, length.from),
        kit: script::bytes(s, kit),
        pupil: script::bytes(s, pupil),
        end: pupil.to,
    })
}

/// Takes one item. The state is lent, so that the bench is not copied where it stays.
pub fn item(state: &mut State, s: &[u8], out: &mut [u8]) {
    let first = script::take(s, state.place.at, 1);
    let place = state.place.answered(first.to, state.place.used);
    state.place = place;
    match words::byte_at(s, first.from) {
        0 => seconds::second(state, out),
        1 => commands::carry_out(state, s, out),
        2 => frames::status(state, out),
        3 => lists::run(state, s, out),
        4 => state.renew(),
        5 => state.place = lists::shown(place, s, out),
        6 => state.place = frames::read(place, s, out),
        7 => state.place = commands::read(place, s, out),
        8 => seconds::pass(state, s, out),
        9 => commands::carry_out_decoded(state, s, out),
        10 => state.place = texts::assemble(place, s, out),
        11 => state.place = texts::list(place, s, out),
        12 => texts::run(state, s, out),
        13 => state.place = texts::line(place, s, out),
        14 => tags::own(state, s, out),
        15 => state.place = tags::read(place, s, out),
        _ => state.place = place.bad(out),
    }
}
