//! `state`: the bench, with fields written as `set` does, is given to every call that takes one but `housekeeping`, which has a verb of its own: a
//! FLUSH to carry out, a second, the status, the free entries, and two lists of a FLUSH each to run, the second one raw and then typed. Each answers
//! with its code, 27 where the state is not sound, and with the state as it came or changed.
use super::{asking, compare, lists, rooms, say, telling};
use bench::{Bench, Code, Ran, Rejection};
use wire::{Command, Kind};

// A call's code behind its name, and whether the state is as it came.
fn answer(name: &[u8], code: u8, b: &Bench, after: &Bench) {
    say::field8(name, code);
    if compare::same(b, after) {
        say::text(b" same");
    } else {
        say::text(b" changed");
    }
}

// A command carried out.
fn carried(name: &[u8], b: Bench, carried: Result<Bench, Rejection>) {
    let told = bench::told_of(&carried);
    answer(name, told.code, &b, &carried.unwrap_or(b));
}

// A second, with what it handed over.
fn second(b: Bench) {
    let name = b", second ";
    match b.second() {
        Ok(passed) => {
            answer(name, 0, &b, &passed.bench);
            say::text(b" ");
            asking::handed(&passed.group, &passed.codes);
        }
        Err(refused) => {
            answer(name, refused.code(), &b, &b);
            say::text(b" none");
        }
    }
}

// A run: its code, how many records each sender has, and whether the room behind them is as it was.
fn ran(name: &[u8], code: u8, b: Bench, ran: Ran, room: &[u8]) {
    answer(name, code, &b, &ran.bench);
    say::field(b" ", u64::from(ran.kit));
    say::field(b" ", u64::from(ran.pupil));
    rooms::rest(
        room,
        (ran.kit as usize + ran.pupil as usize) * report::RECORD,
    );
}

// A run of two raw lists.
fn run(b: Bench, list: &[u8]) {
    let mut room = [rooms::FILL; report::ROOM];
    let done = b.run(list, list, &mut room);
    ran(
        b", run ",
        bench::code_of(&done),
        b,
        lists::left(b, done),
        &room,
    );
}

// A run of a raw list and a typed one.
fn typed(b: Bench, list: &[u8]) {
    let mut room = [rooms::FILL; report::ROOM];
    let done = b.run_typed(list, b"tlm_flush\n", &mut room);
    let found = bench::finding_of(&done);
    ran(b", typed ", found.told.code, b, lists::left(b, done), &room);
}

/// `state`: sound or not, and the answer of every call.
pub fn state(b: Bench) {
    let command = Command {
        flag: false,
        kind: Kind::TlmFlush,
    };
    let bytes = b"\x01\x5a\x00\x02\x01\x5a\x00\x02";
    if b.is_sound() {
        say::text(b"sound");
    } else {
        say::text(b"not sound");
    }
    carried(b", carry_out ", b, b.carry_out(command));
    carried(b", bytes ", b, b.carry_out_bytes(bytes));
    second(b);
    say::field8(b", status ", bench::code_of(&b.status()));
    telling::free(b", free ", b);
    run(b, bytes);
    typed(b, bytes);
}
