//! The gas valve. `gas`, whose line has the size of the room in front, reads bytes as a frame and writes what was taken into that room. `valve` carries out
//! frames one after another, each behind its size; its line begins with 00 for a fresh valve, 01 for a safe, 02 for an armed and 03 for a fired one.
use super::{lines, rooms, say};
use valve::{Act, Frame, Refusal, Valve};
use words::Code;

// A frame that was taken: its flags, what it asks, and the bytes that it is written as.
fn taken(f: Frame, size: u8) {
    say::flag(b"code 0, ocpl ", f.ocpl);
    say::flag(b" quiet ", f.quiet);
    match f.act {
        Act::Arm => say::text(b", arm"),
        Act::Fire(code) => say::hex16(b", fire ", code),
    }
    say::text(b"; written again: ");
    rooms::put_valve(f, size);
}

/// `gas`: the code of reading these bytes.
pub fn read(s: &[u8]) {
    match valve::read_frame(lines::rest(s, 1)) {
        Ok(f) => taken(f, words::byte_at(s, 0)),
        Err(refusal) => say::field8(b"code ", refusal.code()),
    }
}

// The valve that a line begins with.
fn begun(which: u8) -> Valve {
    match which {
        0 => Valve::fresh(),
        1 => Valve::Safe,
        2 => Valve::Armed,
        _ => Valve::Fired,
    }
}

// What came of a frame: the code, and the status word of the valve, which goes on.
fn answer(valve: Valve, carried: Result<Valve, Refusal>) -> Valve {
    let next = carried.unwrap_or(valve);
    say::field8(b"code ", words::code_of(&carried));
    say::hex16(b" status ", next.status());
    next
}

/// `valve`: the code and the status of each frame.
pub fn carry_out(s: &[u8]) {
    let mut valve = begun(words::byte_at(s, 0));
    let mut parting: &[u8] = b"";
    let mut left = lines::rest(s, 1);
    // Each frame says how far the next one is, so that no iterator of the library goes over them.
    while let [size, rest @ ..] = left {
        let size = usize::from(*size);
        say::text(parting);
        valve = answer(valve, valve.carry_out(lines::part(rest, 0, size)));
        parting = b", ";
        left = &rest[size.min(rest.len())..];
    }
}
