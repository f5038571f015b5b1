//! The items with a frame of the valve: 01 carries one out, and the valve goes on from there; 02 reads one and, where it is taken, writes it again into a
//! lent room.
use super::items::State;
use script::rooms::FILL;
use script::{Place, output, rooms};
use valve::{Act, Frame, Refusal, Valve};
use words::Code;

// A code, which is that of the answer as a whole.
fn code<T, E: Code>(out: &mut [u8], used: usize, answer: &Result<T, E>) -> usize {
    output::number(out, used, u64::from(words::code_of(answer)))
}

// What a frame came to, and the status word of the valve afterwards, four hex digits.
fn carried_line(
    out: &mut [u8],
    used: usize,
    answer: &Result<Valve, Refusal>,
    valve: Valve,
) -> usize {
    let used = output::text(out, used, b"valve");
    let used = code(out, used, answer);
    let used = output::hex(out, used, &valve.status().to_be_bytes());
    output::end(out, used)
}

/// 01, the bytes of a frame: `valve CODE STATUS`, with the status word of the valve afterwards.
pub fn carry_out(state: State, s: &[u8], out: &mut [u8]) -> State {
    let State { valve, place } = state;
    let bytes = script::take_short(s, place.at);
    if !bytes.whole {
        return state.went_on(place.bad(out));
    }
    let answer = valve.carry_out(script::bytes(s, bytes));
    let valve = answer.unwrap_or(valve);
    let used = carried_line(out, place.used, &answer, valve);
    State {
        valve,
        place: place.answered(bytes.to, used),
    }
}

// The two flags as one number, 0 to 3.
fn flags(f: Frame) -> u64 {
    u64::from(f.ocpl) * 2 + u64::from(f.quiet)
}

// The flags, and what the frame asks, the firing code in decimal.
fn told(out: &mut [u8], used: usize, f: Frame) -> usize {
    let used = output::number(out, used, flags(f));
    match f.act {
        Act::Arm => output::text(out, used, b" arm"),
        Act::Fire(code) => {
            let used = output::text(out, used, b" fire");
            output::number(out, used, u64::from(code))
        }
    }
}

// The code of writing a frame and, where that is 0, the bytes written.
fn written(out: &mut [u8], used: usize, f: Frame, room: &mut [u8]) -> usize {
    let answer = valve::write_frame(f, room);
    let used = code(out, used, &answer);
    if answer.is_ok() {
        output::hex(out, used, script::front(room, valve::SIZE))
    } else {
        used
    }
}

// The code of reading a frame and, where that is 0, what it says and what writing it gives.
fn taken(out: &mut [u8], used: usize, bytes: &[u8], room: &mut [u8]) -> usize {
    let answer = valve::read_frame(bytes);
    let used = code(out, used, &answer);
    match answer {
        Ok(f) => {
            let used = told(out, used, f);
            written(out, used, f, room)
        }
        Err(_) => used,
    }
}

fn read_line(out: &mut [u8], used: usize, bytes: &[u8], length: u8) -> usize {
    let mut room = [FILL; rooms::SHORT];
    let used = output::text(out, used, b"frame");
    let used = taken(out, used, bytes, &mut room[..usize::from(length)]);
    output::end(out, used)
}

/// 02, a room's length of one byte, and the bytes of a frame: `frame CODE`; where the code is 0, `frame 0 FLAGS arm CODE` or
/// `frame 0 FLAGS fire FIRECODE CODE` with the code of the writing, and the bytes.
pub fn read(place: Place, s: &[u8], out: &mut [u8]) -> Place {
    let length = script::take(s, place.at, 1);
    let bytes = script::take_short(s, length.to);
    if !bytes.whole {
        return place.bad(out);
    }
    let length = words::byte_at(s, length.from);
    let used = read_line(out, place.used, script::bytes(s, bytes), length);
    place.answered(bytes.to, used)
}
