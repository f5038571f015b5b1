//! The bytes of a line. Plain: hex with blanks anywhere between the digits; `z` stands for a word of zeros, and `^` for the XOR of the words before it,
//! so that a command can be given its right last word. In quotes: text, where behind a backslash n, r, t and 0 stand for their bytes, x and two hex
//! digits for that byte, and anything else for itself, so also a quote. A number of 16 bits and `*` before a quote: the text in it so often.
//! In angle brackets: numbers of up to eight hex digits with blanks between them, each in groups of seven bits, as a stored list has its numbers.
ghost use Rattle.std.specs.Prelude.{◌<◌, IfSome};

use super::{lines, rooms};

// No line has so many bytes; it keeps the product with a number of 16 bits small.
const SIZES: usize = 65536;

// How much more each group of seven bits counts than the one before it.
const GROUP: u32 = 128;

// The first number that has more than seven hex digits.
const SEVEN_DIGITS: u32 = 0x1000_0000;

// What the next character is: plain, in quotes, behind a backslash, a digit behind `\x`; or in angle brackets, before a number, or behind digits that say this.
#[derive(Clone, Copy)]
enum Mode {
    Plain,
    Quoted,
    Escaped,
    Digit,
    Between,
    Number(u32),
}

// How far the bytes are made: hex digits so far, two to a byte; where the text in quotes began, and how often it is wanted.
#[derive(Clone, Copy)]
struct Scan {
    mode: Mode,
    digits: usize,
    start: usize,
    times: u16,
}

impl Scan {
    // The same before another kind of character.
    fn goes_on(self, mode: Mode) -> Scan {
        Scan { mode, ..self }
    }
}

// Before the next text in quotes, behind so many digits.
fn plainly(digits: usize) -> Scan {
    Scan {
        mode: Mode::Plain,
        digits,
        start: 0,
        times: 1,
    }
}

// The value of a hex digit.
fn digit(c: u8) -> Option<u8>
    ensures { IfSome result (λ d. d < 16) }
{
    match c {
        b'0'..=b'9' => Some(c - b'0'),
        b'a'..=b'f' => Some(c - b'a' + 10),
        _ => None,
    }
}

// The XOR of the words in front of a place.
fn sum(room: &[u8], end: usize) -> u32 {
    let mut sum = 0;
    for i in 0..end / words::WORD {
        sum ^= words::word_at(room, i * words::WORD);
    }
    sum
}

// Puts a word at a place, if there is room.
fn put_word(room: &mut [u8], at: usize, value: u32) {
    if at <= room.len() {
        let _ = words::put_word(&mut room[at..], value);
    }
}

// Puts a hex digit behind the one that the byte at a place has.
fn put_digit(room: &mut [u8], at: usize, d: u8) {
    if at < room.len() {
        room[at] = room[at] % 16 * 16 + d % 16;
    }
}

// Puts what one character stands for behind so many digits, and answers how many there are then.
fn character(room: &mut [u8], digits: usize, c: u8) -> usize {
    let at = digits / 2;
    match (c, digit(c)) {
        (b'z', _) => {
            put_word(room, at, 0);
            digits.wrapping_add(8)
        }
        (b'^', _) => {
            let last = sum(room, at);
            put_word(room, at, last);
            digits.wrapping_add(8)
        }
        (_, Some(d)) => {
            put_digit(room, at, d);
            digits.wrapping_add(1)
        }
        (_, None) => digits,
    }
}

// Takes the last four digits back: they say how often the text that comes is wanted.
fn counted(room: &[u8], scan: Scan) -> Scan {
    let digits = scan.digits.wrapping_sub(4);
    Scan {
        digits,
        times: words::half_at(room, digits / 2),
        ..scan
    }
}

// A character outside quotes.
fn plain(room: &mut [u8], scan: Scan, c: u8) -> Scan {
    match c {
        b'"' => Scan {
            mode: Mode::Quoted,
            start: scan.digits / 2,
            ..scan
        },
        b'*' => counted(room, scan),
        b'<' => scan.goes_on(Mode::Between),
        _ => Scan {
            digits: character(room, scan.digits, c),
            ..scan
        },
    }
}

// Puts the bytes from one place to another so often in all, as far as the room goes, and answers where they end.
fn repeat(room: &mut [u8], start: usize, end: usize, times: u16) -> usize {
    let size = end.wrapping_sub(start) % SIZES;
    let to = start.wrapping_add(size * usize::from(times));
    for i in end..to.min(room.len()) {
        let b = words::byte_at(room, i.wrapping_sub(size));
        rooms::set(room, i, b);
    }
    to
}

// At the quote that ends a text.
fn closed(room: &mut [u8], scan: Scan) -> Scan {
    let end = repeat(room, scan.start, scan.digits / 2, scan.times);
    plainly(end.wrapping_mul(2))
}

// Puts a byte of the text in quotes.
fn put(room: &mut [u8], scan: Scan, b: u8) -> Scan {
    rooms::set(room, scan.digits / 2, b);
    Scan {
        mode: Mode::Quoted,
        digits: scan.digits.wrapping_add(2),
        ..scan
    }
}

// A character in quotes.
fn quoted(room: &mut [u8], scan: Scan, c: u8) -> Scan {
    match c {
        b'"' => closed(room, scan),
        b'\\' => scan.goes_on(Mode::Escaped),
        _ => put(room, scan, c),
    }
}

// A character behind a backslash.
fn escaped(room: &mut [u8], scan: Scan, c: u8) -> Scan {
    match c {
        b'n' => put(room, scan, b'\n'),
        b'r' => put(room, scan, b'\r'),
        b't' => put(room, scan, b'\t'),
        b'0' => put(room, scan, 0),
        b'x' => scan.goes_on(Mode::Digit),
        _ => put(room, scan, c),
    }
}

// A digit behind `\x`; the text goes on when the byte has both.
fn escaped_digit(room: &mut [u8], scan: Scan, c: u8) -> Scan {
    let digits = character(room, scan.digits, c);
    let mode = if digits % 2 == 0 {
        Mode::Quoted
    } else {
        scan.mode
    };
    Scan {
        mode,
        digits,
        ..scan
    }
}

// Puts a number in groups of seven bits, lowest first, from a place on, the high bit set on all but the last, and answers where they end.
// A `while`, as it takes one group after another off the number until less than one is left.
fn groups(room: &mut [u8], at: usize, value: u32) -> usize {
    let mut left = value;
    let mut i = at;
    while GROUP <= left {
        rooms::set(room, i, (left % GROUP + GROUP) as u8);
        left /= GROUP;
        i = i.wrapping_add(1);
    }
    rooms::set(room, i, left as u8);
    i.wrapping_add(1)
}

// A character in angle brackets that stands behind no digit.
fn between(scan: Scan, c: u8) -> Scan {
    match digit(c) {
        Some(d) => scan.goes_on(Mode::Number(u32::from(d))),
        None if c == b'>' => scan.goes_on(Mode::Plain),
        None => scan.goes_on(Mode::Between),
    }
}

// A character behind the digits of a number, which ends where no digit follows.
fn grouped(room: &mut [u8], scan: Scan, value: u32, c: u8) -> Scan {
    if let Some(d) = digit(c) {
        return scan.goes_on(Mode::Number(value % SEVEN_DIGITS * 16 + u32::from(d)));
    }
    let digits = groups(room, scan.digits / 2, value).wrapping_mul(2);
    between(Scan { digits, ..scan }, c)
}

// One character, wherever it stands.
fn step(room: &mut [u8], scan: Scan, c: u8) -> Scan {
    match scan.mode {
        Mode::Plain => plain(room, scan, c),
        Mode::Quoted => quoted(room, scan, c),
        Mode::Escaped => escaped(room, scan, c),
        Mode::Digit => escaped_digit(room, scan, c),
        Mode::Between => between(scan, c),
        Mode::Number(value) => grouped(room, scan, value, c),
    }
}

/// Puts the bytes of a line at the front of a room, and answers how many there are.
pub fn bytes(line: &[u8], room: &mut [u8]) -> usize {
    let mut scan = plainly(0);
    for &c in lines::rest(line, lines::find(line, b':')) {
        scan = step(room, scan, c);
    }
    scan.digits / 2
}
