//! What the test programs print of a refusal: its code, the line or command that it is of, and what was wrong with the number. It is no part of
//! `script`, which knows nothing of commands.
#![tactic(auto)]

use script::{output, rooms};
use wire::{Stray, Told};

// What was wrong with a number: the parameter, the value found, the lowest and the highest allowed.
fn wrong(out: &mut [u8], used: usize, stray: Stray) -> usize {
    let used = output::number(out, used, u64::from(stray.par));
    let used = output::number(out, used, u64::from(stray.value));
    let used = output::number(out, used, u64::from(stray.low));
    output::number(out, used, u64::from(stray.high))
}

/// A code, and what was wrong with the number: ` CODE PAR VALUE LOW HIGH`.
pub fn told(out: &mut [u8], used: usize, told: Told) -> usize {
    let used = output::number(out, used, u64::from(told.code));
    wrong(out, used, told.stray)
}

/// A code, the line or command that it is of, and what was wrong with the number: ` CODE NUMBER PAR VALUE LOW HIGH`.
pub fn numbered(out: &mut [u8], used: usize, told: Told, number: u32) -> usize {
    let used = output::number(out, used, u64::from(told.code));
    let used = output::number(out, used, u64::from(number));
    wrong(out, used, told.stray)
}

/// The same and the bytes written, so many at the front of a room, which end the line; then the line of the room's rest.
pub fn written(
    out: &mut [u8],
    used: usize,
    told: Told,
    number: u32,
    room: &[u8],
    size: usize,
) -> usize {
    let used = numbered(out, used, told, number);
    let used = output::hex(out, used, script::front(room, size));
    let used = output::end(out, used);
    rooms::rest_line(out, used, room, size)
}
