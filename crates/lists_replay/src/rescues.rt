//! The item of damaged lists: 02 puts the commands that pass at the front of a lent room and the stretches that were skipped at the front of another, and
//! prints whether the rest of each room is as it was.
use rescue::{Refusal, Rescued, STRETCH};
use script::rooms::FILL;
use script::{Place, output, rooms};

// Where the length begins in a stretch, behind its start.
const LENGTH: usize = 2;

// What a rescue that was refused kept and skipped.
const NOTHING: Rescued = Rescued {
    kept: 0,
    stretches: 0,
};

fn skipped_line(out: &mut [u8], used: usize, stretch: &[u8]) -> usize {
    let used = output::text(out, used, b"skipped");
    let used = output::number(out, used, u64::from(words::half_at(stretch, 0)));
    let used = output::number(out, used, u64::from(words::half_at(stretch, LENGTH)));
    output::end(out, used)
}

// A line for each of the first so many stretches of a table, as far as there are whole ones.
fn skipped_lines(out: &mut [u8], used: usize, table: &[u8], stretches: usize) -> usize {
    let mut next = used;
    for stretch in table.chunks_exact(STRETCH).take(stretches) {
        next = skipped_line(out, next, stretch);
    }
    next
}

// `rescued CODE KEPT STRETCHES` and the bytes that were kept, a line for each stretch, and one for the rest of each room.
fn rescued_lines(
    out: &mut [u8],
    used: usize,
    rescued: Result<Rescued, Refusal>,
    room: &[u8],
    table: &[u8],
) -> usize {
    let code = words::code_of(&rescued);
    let done = rescued.unwrap_or(NOTHING);
    let used = output::text(out, used, b"rescued");
    let used = output::number(out, used, u64::from(code));
    let used = output::number(out, used, done.kept as u64);
    let used = output::number(out, used, done.stretches as u64);
    let used = output::hex(out, used, script::front(room, done.kept));
    let used = output::end(out, used);
    let used = skipped_lines(out, used, table, done.stretches);
    let used = rooms::rest_line(out, used, room, done.kept);
    rooms::rest_line(out, used, table, done.table())
}

/// 02, the lengths of a room for the commands and of one for the stretches, of two bytes each, and a list: `rescued CODE KEPT STRETCHES` and the bytes that
/// were kept; for each stretch a line `skipped START LENGTH`; and a line `rest` for each room, that of the commands first.
pub fn rescue_list(place: Place, s: &[u8], out: &mut [u8]) -> Place {
    let commands = script::take(s, place.at, 2);
    let stretches = script::take(s, commands.to, 2);
    let bytes = script::take_long(s, stretches.to);
    if !bytes.whole {
        return place.bad(out);
    }
    let mut room = [FILL; rooms::LARGEST];
    let mut table = [FILL; rooms::LARGEST];
    let commands = rooms::capped(words::half_at(s, commands.from), rooms::LARGEST);
    let stretches = rooms::capped(words::half_at(s, stretches.from), rooms::LARGEST);
    let room = &mut room[..commands];
    let table = &mut table[..stretches];
    let rescued = rescue::rescue(script::bytes(s, bytes), room, table);
    let used = rescued_lines(out, place.used, rescued, room, table);
    place.answered(bytes.to, used)
}
