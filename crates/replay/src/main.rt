//! Replays a script of events on a fresh bench and prints what each one answers. The program decides nothing itself: it hands the script's bytes to
//! the libraries and prints what they answer. The items that a script is made of stand in `items`; numbers of several bytes are big-endian.
#![tactic(auto)]

mod commands;
mod frames;
mod items;
mod lists;
mod reports;
mod seconds;
mod tags;
mod texts;

use items::State;
use script::output;

// Takes one item after another until the script ends or an item is bad. Each item takes a byte at least, so the script's length bounds the turns.
fn replay(s: &[u8], out: &mut [u8]) {
    let mut state = State::fresh();
    for _ in s {
        if !state.goes_on(s) {
            break;
        }
        items::item(&mut state, s, out);
    }
    output::flush(out, state.place.used);
}

fn main() {
    let mut room = io::large_buffer();
    let mut out = io::large_buffer();
    let n = script::read(&mut room);
    replay(&room[..n], &mut out);
}
