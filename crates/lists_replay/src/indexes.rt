//! The items of an index beside a list: 03 builds one, or extends one that is handed in, into a lent room, and prints whether the rest of the room is
//! as it was; 04 looks a command up through one.
use super::offsets;
use script::offsets::{FILL, read};
use script::{Place, output, rooms};

fn built_lines(out: &mut [u8], used: usize, list: &[u8], old: &[u16], room: &mut [u16]) -> usize {
    let indexed = index::build(list, old, room);
    let count = indexed.unwrap_or(0);
    let used = output::text(out, used, b"indexed");
    let used = output::number(out, used, u64::from(words::code_of(&indexed)));
    let used = output::number(out, used, count as u64);
    let used = offsets::numbers(out, used, room, count);
    let used = output::end(out, used);
    offsets::rest_line(out, used, room, count)
}

/// 03, a room's length in offsets, of two bytes, the offsets of an earlier index, and a list: `indexed CODE COUNT` and, where the code is 0, the
/// offsets; then `rest same`, or `rest` and the place of the first offset behind them that was changed.
pub fn build(place: Place, s: &[u8], out: &mut [u8]) -> Place {
    let length = script::take(s, place.at, 2);
    let old = offsets::take(s, length.to);
    let list = script::take_long(s, old.to);
    if !list.whole {
        return place.bad(out);
    }
    let mut handed = [0u16; offsets::MOST];
    let mut room = [FILL; offsets::MOST];
    let count = read(script::bytes(s, old), &mut handed);
    let length = rooms::capped(words::half_at(s, length.from), offsets::MOST);
    let bytes = script::bytes(s, list);
    let used = built_lines(
        out,
        place.used,
        bytes,
        &handed[..count],
        &mut room[..length],
    );
    place.answered(list.to, used)
}

/// 04, the offsets of an index, a list and a number of four bytes: `found` and the bytes, nothing behind it where there are none.
pub fn look_up(place: Place, s: &[u8], out: &mut [u8]) -> Place {
    let old = offsets::take(s, place.at);
    let list = script::take_long(s, old.to);
    let number = script::take(s, list.to, 4);
    if !number.whole {
        return place.bad(out);
    }
    let mut handed = [0u16; offsets::MOST];
    let count = read(script::bytes(s, old), &mut handed);
    let asked = words::word_at(s, number.from);
    let bytes = index::look_up(script::bytes(s, list), &handed[..count], asked);
    let used = output::bytes_line(out, place.used, b"found", bytes);
    place.answered(number.to, used)
}
