//! The items with a status frame: 02 prints the bench's own; 06 reads one and, where it is taken, writes it again.
use super::items::{State, take_lent};
use frame::Frame;
use script::rooms::FILL;
use script::{Place, output, rooms};

/// 02: `status` and the bytes of the frame, or `status CODE`.
pub fn status(state: &mut State, out: &mut [u8]) {
    let place = state.place;
    let used = answers::status(out, place.used, &state.bench.status());
    state.place = place.answered(place.at, used);
}

// The code of writing a frame and, where that is 0, the bytes written.
fn written(out: &mut [u8], used: usize, f: Frame, room: &mut [u8]) -> usize {
    let wrote = frame::write_frame(f, room);
    let used = output::number(out, used, u64::from(words::code_of(&wrote)));
    match wrote {
        Ok(()) => output::hex(out, used, script::front(room, frame::SIZE)),
        Err(_) => used,
    }
}

// The code of reading a frame and, where that is 0, what writing it gives.
fn taken(out: &mut [u8], used: usize, bytes: &[u8], room: &mut [u8]) -> usize {
    let read = frame::read_frame(bytes);
    let used = output::number(out, used, u64::from(words::code_of(&read)));
    match read {
        Ok(f) => written(out, used, f, room),
        Err(_) => used,
    }
}

fn line(out: &mut [u8], used: usize, bytes: &[u8], room: &mut [u8]) -> usize {
    let used = output::text(out, used, b"frame");
    let used = taken(out, used, bytes, room);
    output::end(out, used)
}

/// 06, a room's length of one byte, and the bytes of a frame: `frame CODE`, or `frame 0 CODE` with the code of the writing and the bytes.
pub fn read(place: Place, s: &[u8], out: &mut [u8]) -> Place {
    let Some(lent) = take_lent(s, place.at) else {
        return place.bad(out);
    };
    let mut room = [FILL; rooms::SHORT];
    let used = line(
        out,
        place.used,
        lent.bytes,
        &mut room[..usize::from(lent.length)],
    );
    place.answered(lent.end, used)
}
