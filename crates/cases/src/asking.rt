//! Asking the bench, which goes on from there: `step` carries out a decoded command, `bytes` the one at the front of some bytes, `second` lets a
//! second pass, each with its code and the status afterwards.
use super::{say, telling};
use bench::{Bench, Code, Group, Rejection, Unsound};
use wire::Kind;

/// `step` and `bytes`: the code, with what was wrong with the number, and the status of the bench, which goes on.
pub fn carried(b: Bench, carried: Result<Bench, Rejection>) -> Bench {
    say::told(bench::told_of(&carried));
    let next = match carried {
        Ok(next) => next,
        Err(_) => b,
    };
    telling::status(b", ", next);
    next
}

// One entry of a group, behind those before it, and its code where that is not 0.
fn entry(i: usize, kind: Kind, code: u8) {
    if 0 < i {
        say::text(b"; ");
    }
    say::kind(kind);
    if 0 < code {
        say::field8(b" code ", code);
    }
}

/// What a second handed over: how many entries and which, with their codes, or none.
pub fn handed(group: &Group, codes: &[u8; 64]) {
    let size = store::group_size(group.count);
    if size == 0 {
        say::text(b"none");
        return;
    }
    say::number(size as u64);
    say::text(b": ");
    for (i, &code) in codes[..size].iter().enumerate() {
        entry(i, store::handed_at(&group.words, i), code);
    }
}

/// What a second answered: the code, and what was handed over.
pub fn passed(group: &Group, codes: &[u8; 64]) {
    say::told(wire::plain(0));
    say::text(b", ");
    handed(group, codes);
}

/// The same where none passed.
pub fn not_passed(refused: Unsound) {
    say::told(wire::plain(refused.code()));
    say::text(b", none");
}

/// `second`: the code, what was handed over, and the status of the bench, which goes on.
pub fn second(b: Bench) -> Bench {
    let next = match b.second() {
        Ok(done) => {
            passed(&done.group, &done.codes);
            done.bench
        }
        Err(refused) => {
            not_passed(refused);
            b
        }
    };
    telling::status(b", ", next);
    next
}
