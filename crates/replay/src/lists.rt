//! The items with two raw lists: 03 runs them into a lent room, and prints the records that it put there and whether the rest of the room is as it
//! was; 05 shows the bytes of a command.
use super::items::{State, two_lists};
use super::reports;
use bench::{Ran, RunRefusal};
use script::rooms::FILL;
use script::{Place, output, rooms};

fn lines(out: &mut [u8], used: usize, ran: &Result<Ran, RunRefusal>, room: &[u8]) -> usize {
    let used = output::text(out, used, b"run");
    let used = output::number(out, used, u64::from(words::code_of(ran)));
    reports::lines(out, used, ran, room)
}

/// 03, a room's length of two bytes, the kit's list and the pupil's: `run CODE KIT PUPIL`, a line `record` for each record, and `rest same`, or
/// `rest` and the place of the first byte behind the records that was changed.
pub fn run(state: &mut State, s: &[u8], out: &mut [u8]) {
    let place = state.place;
    let Some(lists) = two_lists(s, place.at) else {
        state.place = place.bad(out);
        return;
    };
    let mut room = [FILL; rooms::LARGEST];
    let length = rooms::capped(lists.length, rooms::LARGEST);
    let room = &mut room[..length];
    let ran = state.bench.run(lists.kit, lists.pupil, room);
    let used = lines(out, place.used, &ran, room);
    if let Ok(ran) = ran {
        state.bench = ran.bench;
    }
    state.place = place.answered(lists.end, used);
}

/// 05, the kit's list, the pupil's, a sender and a number of four bytes: `shown` and the bytes, nothing behind it where there are none.
pub fn shown(place: Place, s: &[u8], out: &mut [u8]) -> Place {
    let kit = script::take_long(s, place.at);
    let pupil = script::take_long(s, kit.to);
    let sender = script::take(s, pupil.to, 1);
    let number = script::take(s, sender.to, 4);
    if !number.whole {
        return place.bad(out);
    }
    let bytes = walk::shown(
        script::bytes(s, kit),
        script::bytes(s, pupil),
        words::byte_at(s, sender.from),
        words::word_at(s, number.from),
    );
    let used = output::bytes_line(out, place.used, b"shown", bytes);
    place.answered(number.to, used)
}
