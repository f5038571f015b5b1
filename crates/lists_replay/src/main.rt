//! Tries what is done with whole lists of commands by a script of items, and prints what each one answers. The program decides nothing itself: it
//! hands the script's bytes to the libraries and prints what they answer. The items stand in `items`; numbers of several bytes are big-endian.
#![tactic(auto)]

mod cards;
mod indexes;
mod items;
mod offsets;
mod rescues;

use script::{Place, output};

// Takes one item after another until the script ends or an item is bad. Each item takes a byte at least, so the script's length bounds the turns.
fn replay(s: &[u8], out: &mut [u8]) {
    let mut place = Place::start();
    for _ in s {
        if !place.goes_on(s) {
            break;
        }
        place = items::item(place, s, out);
    }
    output::flush(out, place.used);
}

fn main() {
    let mut room = io::large_buffer();
    let mut out = io::large_buffer();
    let n = script::read(&mut room);
    replay(&room[..n], &mut out);
}
