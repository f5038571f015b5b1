//! The items of a script. The first byte of one says what it is; its function says what follows, and what it prints. An item that is cut off, or has
//! another first byte, prints `bad script` and ends the program.
use super::{cards, indexes, rescues};
use script::Place;

/// Takes one item.
pub fn item(place: Place, s: &[u8], out: &mut [u8]) -> Place {
    let first = script::take(s, place.at, 1);
    let place = place.answered(first.to, place.used);
    match words::byte_at(s, first.from) {
        0 => cards::to_card(place, s, out),
        1 => cards::from_card(place, s, out),
        2 => rescues::rescue_list(place, s, out),
        3 => indexes::build(place, s, out),
        4 => indexes::look_up(place, s, out),
        _ => place.bad(out),
    }
}
