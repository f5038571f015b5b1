//! The status of a bench in one line: every field of its status frame by name. Goals are bits in hex, power, auto flush and loop 0 or 1; 255 is no
//! macro, and `closed` has bit m for macro m. Beside it the free entries and the housekeeping, which the frame does not have.
use super::say;
use bench::{Bench, Code, Unsound};
use frame::{Frame, Pace};
use housekeeping::Housekeeping;

// A series of images, its time behind this name.
fn series(name: &[u8], pace: Pace) {
    say::field16(name, pace.time);
    say::field16(b" interval ", pace.interval);
    say::field16(b" images ", pace.count);
}

// The region and the goal.
fn aim(f: Frame) {
    say::field16(b", X ", f.x);
    say::field16(b" Y ", f.y);
    say::text(b", goal");
    say::goal(f.xgoal);
    say::goal(f.ygoal);
}

// The modes.
fn modes(f: Frame) {
    say::flag(b", power ", f.power);
    say::flag(b" auto ", f.auto);
    say::flag(b" loop ", f.looping);
    say::field8(b" algorithm ", f.algorithm);
}

// The macros.
fn macros(f: Frame) {
    say::field8(b", running ", f.running);
    say::field8(b" open ", f.opened);
    say::field16(b" left ", f.left);
    say::field8(b" closed ", f.closed);
}

// All fields of a frame.
fn fields(f: Frame) {
    series(b"image time ", f.image);
    series(b", track time ", f.track);
    aim(f);
    modes(f);
    say::field8(b", flushes ", f.flushes);
    macros(f);
}

/// The fields of a frame that was asked for, or 27.
pub fn told(status: Result<Frame, Unsound>) {
    match status {
        Ok(f) => fields(f),
        Err(refused) => say::field8(b"status ", refused.code()),
    }
}

/// Those of the bench's own, behind what parts them from the text before.
pub fn status(parting: &[u8], b: Bench) {
    say::text(parting);
    told(b.status());
}

/// The code of asking for the free entries, and how many there are where it is 0, behind this name.
pub fn free(name: &[u8], b: Bench) {
    let free = b.free();
    say::field8(name, bench::code_of(&free));
    if let Ok(count) = free {
        say::field8(b" ", count);
    }
}

/// The numbers of a housekeeping frame.
pub fn numbers(h: Housekeeping) {
    say::field(b"received ", u64::from(h.received));
    say::field(b" failed ", u64::from(h.failed));
    say::field8(b" code ", h.code);
    say::field8(b" free ", h.free);
}

/// Those of the bench, or 27, behind what parts them from the text before.
pub fn kept(parting: &[u8], b: Bench) {
    say::text(parting);
    match b.housekeeping() {
        Ok(h) => numbers(h),
        Err(refused) => say::field8(b"housekeeping ", refused.code()),
    }
}
