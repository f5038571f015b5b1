//! The items with one command: 01 carries it out from bytes, 09 carries out a decoded one and writes it; 07 reads one and, where it is taken,
//! writes it again.
use super::items::{State, take_lent};
use bench::{Bench, Rejection};
use script::rooms::FILL;
use script::{Place, output, rooms};
use wire::{Command, Form};

// Room for the longest command.
const LONGEST: usize = 16;

// The code of writing a command and, where that is 0, the bytes written.
fn written(out: &mut [u8], used: usize, command: Command, room: &mut [u8]) -> usize {
    let wrote = wire::write_command(command, room);
    let used = output::number(out, used, u64::from(wire::told_of(&wrote).code));
    match wrote {
        Ok(count) => output::hex(out, used, script::front(room, count)),
        Err(_) => used,
    }
}

// What is told of reading a command and, where the code is 0, what writing it gives.
fn taken(out: &mut [u8], used: usize, bytes: &[u8], room: &mut [u8]) -> usize {
    let read = wire::read_command(bytes);
    let used = tellings::told(out, used, wire::told_of(&read));
    match read {
        Ok(command) => written(out, used, command, room),
        Err(_) => used,
    }
}

fn read_line(out: &mut [u8], used: usize, bytes: &[u8], room: &mut [u8]) -> usize {
    let used = output::text(out, used, b"read");
    let used = taken(out, used, bytes, room);
    output::end(out, used)
}

/// 07, a room's length of one byte, and the bytes of a command: `read CODE PAR VALUE LOW HIGH`; where the code is 0, `read 0 0 0 0 0 CODE` with the
/// code of the writing, and the bytes.
pub fn read(place: Place, s: &[u8], out: &mut [u8]) -> Place {
    let Some(lent) = take_lent(s, place.at) else {
        return place.bad(out);
    };
    let mut room = [FILL; rooms::SHORT];
    let used = read_line(
        out,
        place.used,
        lent.bytes,
        &mut room[..usize::from(lent.length)],
    );
    place.answered(lent.end, used)
}

fn carried_line(out: &mut [u8], used: usize, carried: &Result<Bench, Rejection>) -> usize {
    let used = output::text(out, used, b"command");
    let used = tellings::told(out, used, bench::told_of(carried));
    output::end(out, used)
}

/// 01, the bytes of a command: `command CODE PAR VALUE LOW HIGH`.
pub fn carry_out(state: &mut State, s: &[u8], out: &mut [u8]) {
    let place = state.place;
    let bytes = script::take_short(s, place.at);
    if !bytes.whole {
        state.place = place.bad(out);
        return;
    }
    let carried = state.bench.carry_out_bytes(script::bytes(s, bytes));
    let used = carried_line(out, place.used, &carried);
    if let Ok(bench) = carried {
        state.bench = bench;
    }
    state.place = place.answered(bytes.to, used);
}

fn decoded_line(
    out: &mut [u8],
    used: usize,
    command: Command,
    carried: &Result<Bench, Rejection>,
) -> usize {
    let mut room = [FILL; LONGEST];
    let used = output::text(out, used, b"decoded");
    let used = tellings::told(out, used, bench::told_of(carried));
    let used = written(out, used, command, &mut room);
    output::end(out, used)
}

// The form of a row of the table of commands, from 0; the rows repeat.
fn form_at(row: u8) -> Form {
    match row % 15 {
        0 => Form::ImgPwr,
        1 => Form::ImgRegion,
        2 => Form::ImgTrack,
        3 => Form::TrkAlg,
        4 => Form::TrkLoop,
        5 => Form::ImgImage,
        6 => Form::TrkGoal,
        7 => Form::TlmFlush,
        8 => Form::FlushAuto,
        9 => Form::Open,
        10 => Form::Close,
        11 => Form::Run,
        12 => Form::Wait,
        13 => Form::Stop,
        _ => Form::Clear,
    }
}

// A decoded command of the flag's last bit, a row of the table of commands, and two arguments.
fn decoded(flag: u8, row: u8, first: u32, second: u32) -> Command {
    Command {
        flag: flag % 2 == 1,
        kind: wire::kind_of(form_at(row), first, second),
    }
}

/// 09, a flag, a row and two arguments of four bytes: `decoded CODE PAR VALUE LOW HIGH CODE`, with the second code of the writing, and the bytes.
pub fn carry_out_decoded(state: &mut State, s: &[u8], out: &mut [u8]) {
    let place = state.place;
    let flag = script::take(s, place.at, 1);
    let row = script::take(s, flag.to, 1);
    let first = script::take(s, row.to, 4);
    let second = script::take(s, first.to, 4);
    if !second.whole {
        state.place = place.bad(out);
        return;
    }
    let command = decoded(
        words::byte_at(s, flag.from),
        words::byte_at(s, row.from),
        words::word_at(s, first.from),
        words::word_at(s, second.from),
    );
    let carried = state.bench.carry_out(command);
    let used = decoded_line(out, place.used, command, &carried);
    if let Ok(bench) = carried {
        state.bench = bench;
    }
    state.place = place.answered(second.to, used);
}
