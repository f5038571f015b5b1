//! Typed lists: `assemble` makes a raw list of a text, `list` a text of a raw list, `typed` and `types` run the kit's raw list and a text on the bench
//! of the lines; `letters` assembles a text with each byte at a place, and `line` shows a line. The size of the room stands in front of a text or list;
//! with `typed` and `types` that of the kit's list stands behind it, and this list before the text.
use super::{lines, lists, rooms, say, telling};
use bench::Bench;
use text::{Finding, Refusal};

// The largest room; a line that asks for more gets this one.
const ROOM: usize = 13000;

// Where the bytes begin in a line of `assemble` and `list`, and of `typed` and `line`.
const SHORT: usize = 2;

const LONG: usize = 4;

// The most bytes, and the most records, that are printed; of more the last ones are.
const BYTES: usize = 256;

const RECORDS: u32 = 8;

// The longest text of `letters`.
const LETTERS: usize = 64;

// The code with what was wrong with the number, and the line or command, behind this name, that they are of.
fn told(found: Finding, name: &[u8]) {
    say::told(found.told);
    say::field(name, u64::from(found.number));
}

/// How many bytes were written at the front of a room; the last of them, which the caller prints.
pub fn wrote(room: &[u8], size: usize) -> &[u8] {
    say::field(b", wrote ", size as u64);
    say::text(b" bytes ");
    lines::part(room, size.saturating_sub(BYTES), size)
}

// Translates the text or list of a line: the code, with the line or command behind this name, and how many bytes were written, and these.
// (Closures, as a function of another crate is not passed by its name.)
fn translated<T, P>(s: &[u8], translate: T, name: &[u8], print: P)
where
    T: FnOnce(&[u8], &mut [u8]) -> Result<usize, Refusal>,
    P: FnOnce(&[u8]) + Drop,
    requires translate_callable { T.IsAlwaysCallable translate }
    requires print_callable { P.IsAlwaysCallable print }
{
    let mut room = [rooms::FILL; ROOM];
    let translated = translate(
        lines::rest(s, SHORT),
        rooms::lent(&mut room, words::half_at(s, 0)),
    );
    let size = translated.unwrap_or(0);
    told(text::finding_of(&translated), name);
    if 0 < size {
        print(wrote(&room, size));
    }
    rooms::rest(&room, size);
}

/// `assemble`: the code, how many bytes were written, and these in hex.
pub fn assemble(s: &[u8]) {
    translated(
        s,
        |typed, room| text::assemble(typed, room),
        b" line ",
        say::hex,
    );
}

/// `list`: the code, how many bytes were written, and these as text.
pub fn list(s: &[u8]) {
    translated(
        s,
        |raw, room| text::list_text(raw, room),
        b" number ",
        say::quoted,
    );
}

// The last of so many records at the front of a room.
fn records(room: &[u8], count: u32) {
    for i in count.saturating_sub(RECORDS)..count {
        let at = i as usize * report::RECORD;
        say::text(b", record ");
        say::hex(lines::part(room, at, at + report::RECORD));
    }
}

// What a run of a typed list answered: what was found, how many records each sender has, the last of them, and what is behind them in the room.
fn answer(found: Finding, kit: u32, pupil: u32, room: &[u8]) {
    let count = kit.wrapping_add(pupil);
    told(found, b" line ");
    say::field(b", kit ", u64::from(kit));
    say::field(b", pupil ", u64::from(pupil));
    records(room, count);
    rooms::rest(room, count as usize * report::RECORD);
}

// The run of a line: the sizes of the room and of the kit's list.
fn carried(b: Bench, s: &[u8]) -> Bench {
    let mut room = [rooms::FILL; ROOM];
    let middle = LONG + words::half_at(s, 2) as usize;
    let kit = lines::part(s, LONG, middle);
    let typed = lines::rest(s, middle);
    let ran = b.run_typed(kit, typed, rooms::lent(&mut room, words::half_at(s, 0)));
    let found = bench::finding_of(&ran);
    let ran = lists::left(b, ran);
    answer(found, ran.kit, ran.pupil, &room);
    ran.bench
}

/// `typed`: last comes the status of the bench afterwards.
pub fn typed(b: Bench, s: &[u8]) {
    telling::status(b", ", carried(b, s));
}

/// `types`: the same with its housekeeping, and the bench goes on from there.
pub fn go_on(b: Bench, s: &[u8]) -> Bench {
    let next = carried(b, s);
    telling::kept(b", ", next);
    next
}

// Whether the line's text with this byte at its place is taken; the value is printed where it is.
fn taken(s: &[u8], value: u8) -> bool {
    let mut typed = [0u8; LETTERS];
    let mut room = [rooms::FILL; ROOM];
    let size = s.len().wrapping_sub(SHORT);
    rooms::paste(&mut typed, 0, lines::rest(s, SHORT));
    rooms::set(&mut typed, words::half_at(s, 0) as usize, value);
    let taken = text::assemble(lines::part(&typed, 0, size), &mut room).is_ok();
    if taken {
        say::number(u64::from(value));
        say::text(b" ");
    }
    taken
}

/// `letters`: a text with the byte at a place at each of its 256 values: those with which it is taken, and how many they are.
pub fn letters(s: &[u8]) {
    let count = (0..=u8::MAX).filter(|&value| taken(s, value)).count();
    say::field(b"are taken: ", count as u64);
}

/// `line`: the line with this number of 32 bits.
pub fn line(s: &[u8]) {
    say::quoted(text::line_shown(lines::rest(s, LONG), words::word_at(s, 0)));
}
