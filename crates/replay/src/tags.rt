//! The items with a housekeeping frame: 0e writes the bench's own; 0f reads one and, where it is taken, writes it again.
use super::items::{State, take_lent};
use bench::Unsound;
use housekeeping::Housekeeping;
use script::rooms::FILL;
use script::{Place, output, rooms};

// The numbers of a frame: the last received one, the last failed one and its code, and the free slots.
fn numbers(out: &mut [u8], used: usize, h: Housekeeping) -> usize {
    let used = output::number(out, used, u64::from(h.received));
    let used = output::number(out, used, u64::from(h.failed));
    let used = output::number(out, used, u64::from(h.code));
    output::number(out, used, u64::from(h.free))
}

// The bytes that were written at the front of a room.
fn frame_bytes(out: &mut [u8], used: usize, room: &[u8]) -> usize {
    output::hex(out, used, script::front(room, housekeeping::SIZE))
}

// The code of writing the bench's frame and, where that is 0, its numbers and the bytes written.
fn sent(out: &mut [u8], used: usize, h: Housekeeping, room: &mut [u8]) -> usize {
    let wrote = housekeeping::write_housekeeping(h, room);
    let used = output::number(out, used, u64::from(words::code_of(&wrote)));
    match wrote {
        Ok(()) => {
            let used = numbers(out, used, h);
            frame_bytes(out, used, room)
        }
        Err(_) => used,
    }
}

fn own_line(
    out: &mut [u8],
    used: usize,
    kept: &Result<Housekeeping, Unsound>,
    room: &mut [u8],
) -> usize {
    let used = output::text(out, used, b"housekeeping");
    let used = match kept {
        Ok(h) => sent(out, used, *h, room),
        Err(_) => output::number(out, used, u64::from(words::code_of(kept))),
    };
    output::end(out, used)
}

/// 0e, a room's length of one byte: `housekeeping CODE`, or `housekeeping 0 RECEIVED FAILED FAILCODE FREE` and the bytes.
pub fn own(state: &mut State, s: &[u8], out: &mut [u8]) {
    let place = state.place;
    let length = script::take(s, place.at, 1);
    if !length.whole {
        state.place = place.bad(out);
        return;
    }
    let mut room = [FILL; rooms::SHORT];
    let size = usize::from(words::byte_at(s, length.from));
    let used = own_line(
        out,
        place.used,
        &state.bench.housekeeping(),
        &mut room[..size],
    );
    state.place = place.answered(length.to, used);
}

// The code of writing a frame that was read and, where that is 0, the bytes written.
fn written(out: &mut [u8], used: usize, h: Housekeeping, room: &mut [u8]) -> usize {
    let wrote = housekeeping::write_housekeeping(h, room);
    let used = output::number(out, used, u64::from(words::code_of(&wrote)));
    match wrote {
        Ok(()) => frame_bytes(out, used, room),
        Err(_) => used,
    }
}

// The code of reading a frame and, where that is 0, its numbers and what writing it gives.
fn taken(out: &mut [u8], used: usize, s: &[u8], room: &mut [u8]) -> usize {
    let read = housekeeping::read_housekeeping(s);
    let used = output::number(out, used, u64::from(words::code_of(&read)));
    match read {
        Ok(h) => {
            let used = numbers(out, used, h);
            written(out, used, h, room)
        }
        Err(_) => used,
    }
}

fn line(out: &mut [u8], used: usize, s: &[u8], room: &mut [u8]) -> usize {
    let used = output::text(out, used, b"tags");
    let used = taken(out, used, s, room);
    output::end(out, used)
}

/// 0f, a room's length of one byte, and the bytes of a frame: `tags CODE`, or `tags 0 RECEIVED FAILED FAILCODE FREE CODE` with the code of the
/// writing, and the bytes.
pub fn read(place: Place, s: &[u8], out: &mut [u8]) -> Place {
    let Some(lent) = take_lent(s, place.at) else {
        return place.bad(out);
    };
    let mut room = [FILL; rooms::SHORT];
    let used = line(
        out,
        place.used,
        lent.bytes,
        &mut room[..usize::from(lent.length)],
    );
    place.answered(lent.end, used)
}
