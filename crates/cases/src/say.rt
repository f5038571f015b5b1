//! Printing an answer: a code with what was wrong with the number, bytes in hex or as text, or a command that was taken.
//! Such a command is printed with its flag, its name and its own arguments, goals by their bits.
use wire::{Command, Form, Kind, Layout, Stray, Told};

// The code of an argument out of range, which alone has numbers beside it.
const OUT_OF_RANGE: u8 = 8;

/// Bytes as they are.
pub fn text(s: &[u8]) {
    io::write_all(1, s);
}

/// A number in decimal.
pub fn number(n: u64) {
    io::print_decimal(1, n);
}

// A byte in hex.
fn byte(b: u8) {
    io::print_hex(1, u64::from(b), 2);
}

/// Bytes in hex.
pub fn hex(s: &[u8]) {
    for &b in s {
        byte(b);
    }
}

// A character of a text; one that has no sign of its own as its escape in a line of a case.
fn character(b: u8) {
    match b {
        b'\n' => text(b"\\n"),
        b' '..=b'~' => text(&[b]),
        _ => {
            text(b"\\x");
            byte(b);
        }
    }
}

/// Bytes as a text in quotes.
pub fn quoted(s: &[u8]) {
    text(b"\"");
    for &b in s {
        character(b);
    }
    text(b"\"");
}

/// A number behind its name.
pub fn field(name: &[u8], n: u64) {
    text(name);
    number(n);
}

/// The same of a byte.
pub fn field8(name: &[u8], n: u8) {
    field(name, u64::from(n));
}

/// The same of a number of 16 bits.
pub fn field16(name: &[u8], n: u16) {
    field(name, u64::from(n));
}

/// The same in hex.
pub fn hex16(name: &[u8], n: u16) {
    text(name);
    io::print_hex(1, u64::from(n), 4);
}

/// 1 or 0 behind a name.
pub fn flag(name: &[u8], on: bool) {
    field(name, u64::from(on));
}

// Is there anything but zeros in the value and its limits?
fn has_numbers(stray: Stray) -> bool {
    stray.value != 0 || stray.low != 0 || stray.high != 0
}

/// A code and its parameter; behind code 8 the value found and the lowest and the highest allowed. With any other code these are 0 and left out, but
/// printed where they are not, so that none goes unseen.
pub fn told(t: Told) {
    let stray = t.stray;
    field8(b"code ", t.code);
    field8(b" par ", stray.par);
    if t.code == OUT_OF_RANGE || has_numbers(stray) {
        field(b" value ", u64::from(stray.value));
        field(b" low ", u64::from(stray.low));
        field(b" high ", u64::from(stray.high));
    }
}

// The name of a form.
fn name(form: Form) -> &'static [u8] {
    match form {
        Form::ImgPwr => b"IMG_PWR",
        Form::ImgRegion => b"IMG_REGION",
        Form::ImgTrack => b"IMG_TRACK",
        Form::TrkAlg => b"TRK_ALG",
        Form::TrkLoop => b"TRK_LOOP",
        Form::ImgImage => b"IMG_IMAGE",
        Form::TrkGoal => b"TRK_GOAL",
        Form::TlmFlush => b"TLM_FLUSH",
        Form::FlushAuto => b"FLUSH_AUTO",
        Form::Open => b"OPEN",
        Form::Close => b"CLOSE",
        Form::Run => b"RUN",
        Form::Wait => b"WAIT",
        Form::Stop => b"STOP",
        Form::Clear => b"CLEAR",
    }
}

// A number as an argument.
fn argument(a: u32) {
    field(b" ", u64::from(a));
}

/// A goal, by its bits.
pub fn goal(bits: u32) {
    text(b" ");
    io::print_hex(1, u64::from(bits), 8);
}

// The arguments that a layout has.
fn arguments(layout: Layout, a: u32, b: u32) {
    match layout {
        Layout::Bare => (),
        Layout::Byte | Layout::Half => argument(a),
        Layout::Halves => {
            argument(a);
            argument(b);
        }
        Layout::Singles => {
            goal(a);
            goal(b);
        }
    }
}

/// A kind by its name, with its own arguments.
pub fn kind(kind: Kind) {
    let parts = wire::parts_of(kind);
    text(name(parts.form));
    arguments(wire::row_of(parts.form).layout, parts.first, parts.second);
}

/// A command that was taken.
pub fn taken(c: Command) {
    flag(b"code 0, flag ", c.flag);
    text(b" ");
    kind(c.kind);
}
