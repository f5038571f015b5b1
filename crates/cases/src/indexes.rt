//! Indexes beside lists: `index` builds one or extends the offsets that a line hands in, `grow` extends the index of a list's front to the whole of it;
//! `find` looks a command up through any offsets, and `jump` through indexes of the kit's list and of the pupil's. Lists are made as with `run`.
//! Of a room of offsets the first few places are lent, and all are looked at afterwards.
use super::{lines, lists, rooms, say};
use index::Refusal;
use script::offsets;
use script::offsets::{FILL, SIZE};

// The places of a room, some more than an index has; a line that asks for more gets these. A line that hands in more offsets hands in none.
const ROOM: usize = index::MOST + 8;

// The most offsets that are printed.
const OFFSETS: usize = 16;

// Where the offsets begin in a line of `index`, and of `find`; the list's bytes come behind them.
const INDEX: usize = 6;

const FIND: usize = 8;

// Where the bytes of the list begin in a line of `grow`, and those of the lists in one of `jump`.
const GROW: usize = 4;

const JUMP: usize = 8;

// Takes the offsets that begin at a place of the line.
fn take(room: &mut [u16], s: &[u8], from: usize) {
    offsets::read(lines::rest(s, from), room);
}

// So many offsets at the front of a room; none where it has fewer.
fn front(room: &[u16], count: usize) -> &[u16] {
    room.get(..count).unwrap_or(&[])
}

// The sum of some offsets: it differs where one is wrong that is not printed.
fn sum(offsets: &[u16]) -> u64 {
    offsets
        .iter()
        .fold(0, |sum: u64, &offset| sum.wrapping_add(u64::from(offset)))
}

fn numbers(offsets: &[u16]) {
    for &offset in offsets {
        say::field16(b" ", offset);
    }
}

// An index: all of a short one; of a long one the sum, and the last offsets.
fn printed(offsets: &[u16]) {
    if offsets.is_empty() {
        return;
    }
    if offsets.len() <= OFFSETS {
        say::text(b", offsets");
        numbers(offsets);
        return;
    }
    say::field(b", sum ", sum(offsets));
    say::text(b", last");
    numbers(&offsets[offsets.len() - OFFSETS..]);
}

// Are all places from one on still as they were?
fn rest(room: &[u16], from: usize) {
    let changed = offsets::first_changed(room, from);
    if changed < room.len() {
        say::field(b", changed place ", changed as u64);
    } else {
        say::text(b", rest aaaa");
    }
}

// What a builder answered: its code, how many offsets the index has, the index, and what is behind it in the room.
fn answer(built: Result<usize, Refusal>, room: &[u16]) {
    let count = built.unwrap_or(0);
    say::field8(b"code ", words::code_of(&built));
    say::field(b", count ", count as u64);
    printed(front(room, count));
    rest(room, count);
}

/// `index`: the size of the room in offsets, how many are handed in, and the size of the list.
pub fn build(s: &[u8]) {
    let mut old = [0u16; ROOM];
    let mut list = [0u8; lists::LIST];
    let mut room = [FILL; ROOM];
    let count = words::half_at(s, 2) as usize;
    take(&mut old, s, INDEX);
    lists::fill(&mut list, s, INDEX + count * SIZE);
    let list = lines::part(&list, 0, words::half_at(s, 4) as usize);
    let built = index::build(
        list,
        front(&old, count),
        rooms::lent(&mut room, words::half_at(s, 0)),
    );
    answer(built, &room);
}

// Builds the index of a list in the whole of a room, from the offsets of an earlier one, and says what came of it.
fn extended(list: &[u8], old: &[u16], room: &mut [u16]) -> Result<usize, Refusal> {
    let built = index::build(list, old, room);
    answer(built, room);
    built
}

// The index of a list's front, the one that it is extended to for the whole list, and whether building anew has the same code and leaves the same room.
fn grown(early: &[u8], list: &[u8]) {
    let mut old = [FILL; ROOM];
    let mut room = [FILL; ROOM];
    let mut anew = [FILL; ROOM];
    let before = extended(early, &[], &mut old).unwrap_or(0);
    say::text(b"; ");
    let code = words::code_of(&extended(list, front(&old, before), &mut room));
    let expected = words::code_of(&index::build(list, &[], &mut anew));
    if code == expected && room == anew {
        say::text(b"; same");
    } else {
        say::text(b"; differs");
    }
}

/// `grow`: the sizes of the list's front and of the whole list.
pub fn grow(s: &[u8]) {
    let mut list = [0u8; lists::LIST];
    lists::fill(&mut list, s, GROW);
    let early = lines::part(&list, 0, words::half_at(s, 0) as usize);
    grown(early, lines::part(&list, 0, words::half_at(s, 2) as usize));
}

// The bytes of a command.
fn command(s: &[u8]) {
    if s.is_empty() {
        say::text(b"none");
    } else {
        say::hex(s);
    }
}

/// `find`: a number of 32 bits, how many offsets are handed in, and the size of the list.
pub fn find(s: &[u8]) {
    let mut offsets = [0u16; ROOM];
    let mut list = [0u8; lists::LIST];
    let count = words::half_at(s, 4) as usize;
    take(&mut offsets, s, FIND);
    lists::fill(&mut list, s, FIND + count * SIZE);
    let list = lines::part(&list, 0, words::half_at(s, 6) as usize);
    command(index::look_up(list, front(&offsets, count), words::word_at(s, 0)));
}

// The command of a number through an index of its list, and whether it has the bytes that are shown.
fn held(list: &[u8], number: u32, shown: &[u8]) {
    let mut room = [FILL; ROOM];
    let count = index::build(list, &[], &mut room).unwrap_or(0);
    let found = index::look_up(list, front(&room, count), number);
    command(found);
    if found == shown {
        say::text(b" as shown");
    } else {
        say::text(b" not as shown");
    }
}

/// `jump`: a number of 32 bits, and the sizes of the kit's list and of the pupil's.
pub fn jump(s: &[u8]) {
    let mut kit = [0u8; lists::LIST];
    let mut pupil = [0u8; lists::LIST];
    let number = words::word_at(s, 0);
    let size = words::half_at(s, 4) as usize;
    lists::fill(&mut kit, s, JUMP);
    lists::fill(&mut pupil, s, JUMP + size);
    let kit = lines::part(&kit, 0, size);
    let pupil = lines::part(&pupil, 0, words::half_at(s, 6) as usize);
    say::text(b"kit ");
    held(kit, number, walk::shown(kit, pupil, walk::KIT, number));
    say::text(b", pupil ");
    held(pupil, number, walk::shown(kit, pupil, walk::PUPIL, number));
}
