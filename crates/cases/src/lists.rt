//! Two lists, the kit's and then the pupil's: the line has their sizes, and last of all their bytes, the pupil's right behind the kit's.
//! A list that is longer than the bytes given for it goes on with FLUSHes, to 4,097 bytes at most; one that is said to be longer than that is empty.
use super::{lines, rooms, say, telling};
use bench::{Bench, Ran};

// The first word of a FLUSH, and its last.
const FLUSH: u32 = 0x015a0002;

const FLUSHES: usize = walk::LONGEST / words::WORD;

/// The room of a list, one byte more than may be run.
pub const LIST: usize = walk::LONGEST + 1;

// The largest room of a report; a line that asks for more gets this one.
const ROOM: usize = report::ROOM + report::RECORD;

// Where the bytes of the lists begin in a line of `run`, and of `shown`.
const RUN: usize = 6;

const SHOWN: usize = 9;

/// Makes a list of the bytes from a place of the line on, with FLUSHes behind them.
pub fn fill(list: &mut [u8], s: &[u8], from: usize) {
    let _ = words::put_words(list, &[FLUSH; FLUSHES]);
    rooms::paste(list, 0, lines::rest(s, from));
}

/// What a run leaves: one that is refused leaves the bench as it came, and no records.
pub fn left<E: Drop>(b: Bench, ran: Result<Ran, E>) -> Ran {
    match ran {
        Ok(ran) => ran,
        Err(_) => Ran {
            bench: b,
            kit: 0,
            pupil: 0,
        },
    }
}

// The last of so many records, which ends at this place of the room.
fn last(room: &[u8], count: u32, end: usize) {
    if 0 < count {
        say::text(b", record ");
        say::hex(lines::part(room, end.wrapping_sub(report::RECORD), end));
    }
}

// What a run answered: its code, how many records each sender has and the last of them, and what is behind the records in the room.
fn answer(code: u8, kit: u32, pupil: u32, room: &[u8]) {
    let middle = kit as usize * report::RECORD;
    let end = middle + pupil as usize * report::RECORD;
    say::field8(b"code ", code);
    say::field(b", kit ", u64::from(kit));
    say::field(b", pupil ", u64::from(pupil));
    last(room, kit, middle);
    last(room, pupil, end);
    rooms::rest(room, end);
}

// The run of a line: the sizes of the room, of the kit's list and of the pupil's.
fn carried(b: Bench, s: &[u8]) -> Bench {
    let mut kit = [0u8; LIST];
    let mut pupil = [0u8; LIST];
    let mut room = [rooms::FILL; ROOM];
    let size = words::half_at(s, 2) as usize;
    fill(&mut kit, s, RUN);
    fill(&mut pupil, s, RUN + size);
    let kit = lines::part(&kit, 0, size);
    let pupil = lines::part(&pupil, 0, words::half_at(s, 4) as usize);
    let ran = b.run(kit, pupil, rooms::lent(&mut room, words::half_at(s, 0)));
    let code = bench::code_of(&ran);
    let ran = left(b, ran);
    answer(code, ran.kit, ran.pupil, &room);
    ran.bench
}

/// `run`: last comes the status of the bench afterwards.
pub fn run(b: Bench, s: &[u8]) {
    telling::status(b", ", carried(b, s));
}

/// `runs`: the same with its housekeeping, and the bench goes on from there.
pub fn go_on(b: Bench, s: &[u8]) -> Bench {
    let next = carried(b, s);
    telling::kept(b", ", next);
    next
}

/// `shown`: a sender, a number, and the sizes of the kit's list and of the pupil's.
pub fn shown(s: &[u8]) {
    let mut kit = [0u8; LIST];
    let mut pupil = [0u8; LIST];
    let size = words::half_at(s, 5) as usize;
    fill(&mut kit, s, SHOWN);
    fill(&mut pupil, s, SHOWN + size);
    let kit = lines::part(&kit, 0, size);
    let pupil = lines::part(&pupil, 0, words::half_at(s, 7) as usize);
    say::hex(walk::shown(kit, pupil, words::byte_at(s, 0), words::word_at(s, 1)));
}
