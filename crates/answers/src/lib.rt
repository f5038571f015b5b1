//! What the test programs print of a bench's answers: a second with the entries that it handed over, and the status frame. It is no part of `tellings`,
//! which knows nothing of a bench.
#![tactic(auto)]

mod names;

use bench::{Code, Group, Unsound};
use frame::Frame;
use script::output;
use script::rooms::FILL;
use wire::Kind;

// An entry that was handed over: its code, and what it was, by name.
fn handed_line(out: &mut [u8], used: usize, code: u8, kind: Kind) -> usize {
    let used = output::text(out, used, b"handed");
    let used = output::number(out, used, u64::from(code));
    let used = names::kind(out, used, kind);
    output::end(out, used)
}

fn handed_lines(out: &mut [u8], used: usize, group: &Group, codes: &[u8; 64]) -> usize {
    let size = store::group_size(group.count);
    let mut used = used;
    for (i, &code) in codes[..size].iter().enumerate() {
        used = handed_line(out, used, code, store::handed_at(&group.words, i));
    }
    used
}

fn second_line(out: &mut [u8], used: usize, code: u8, count: u8) -> usize {
    let used = output::text(out, used, b"second");
    let used = output::number(out, used, u64::from(code));
    let used = output::number(out, used, u64::from(count));
    output::end(out, used)
}

/// A second that passed: `second 0 N`, and a line `handed CODE NAME ARGS` for each of the N entries that it handed over.
pub fn second(out: &mut [u8], used: usize, group: &Group, codes: &[u8; 64]) -> usize {
    let used = second_line(out, used, 0, group.count);
    handed_lines(out, used, group, codes)
}

/// A second that did not pass: `second CODE 0`.
pub fn no_second(out: &mut [u8], used: usize, refused: Unsound) -> usize {
    second_line(out, used, refused.code(), 0)
}

fn frame_bytes(out: &mut [u8], used: usize, f: Frame) -> usize {
    let mut room = [FILL; frame::SIZE];
    // The frame of a bench obeys the rules, and has its room.
    let _ = frame::write_frame(f, &mut room);
    output::hex(out, used, &room)
}

/// A status: `status` and the bytes of the frame, or `status CODE` where there is none.
pub fn status(out: &mut [u8], used: usize, status: &Result<Frame, Unsound>) -> usize {
    let used = output::text(out, used, b"status");
    let used = match status {
        Ok(f) => frame_bytes(out, used, *f),
        Err(refused) => output::number(out, used, u64::from(refused.code())),
    };
    output::end(out, used)
}
