//! What the programs say: the kit's own list; a report as text, that is its header and a line for each record; and the line of a refusal.
//! Rules: "The list program", "The programs of typed lists".
#![tactic(auto)]

ghost use Rattle.std.specs.Prelude.{◌+◌, ◌/◌, ◌≤◌, ◌<◌, ◌≡◌, length, leb};
ghost use Rattle.std.proofs.lemmas.List.Edits.{sets};
ghost use Rattle.words.specs.BigEndian.{written};
ghost use Rattle.report.specs.Record.{record_length};
ghost use Rattle.listing.specs.Kit.{kit_bytes};
ghost use Rattle.listing.specs.Text.{ended, name_of, fields_at, line_of, lines_of, report_text, text_room};
ghost use Rattle.listing.specs.Answer.{answer_of, answer_for};

mod refusals;

pub use refusals::{Numbered, Output, put_outcome, put_refusal};
use words::{NoRoom, Writer};

// The bytes of the header, and of the longest line.
const HEADER: usize = 21;

const LINE: usize = 36;

/// The room, in bytes, that the text of the longest report needs. A refusal's line needs less.
pub const TEXT: usize = HEADER + report::RECORDS * LINE;

const BLANK: u8 = b' ';

const LINE_FEED: u8 = b'\n';

/// What a line says of a record, in the order of the columns. Public, since the meaning of a line names it.
#[derive(Clone, Copy, Debug, PartialEq, Eq)]
pub struct Fields {
    sender: u8,
    number: u32,
    code: u32,
    par: u32,
    value: u32,
}

/// The kit's own list: power on; region 0 0; algorithm 0; auto flush 1. Rules: "The list program".
pub fn kit_list() -> [u8; 48]
    ensures { result ≡ kit_bytes }
{
    let commands = [
        0x0114_0003,
        0x0100_0000,
        0x0014_0003,
        0x0117_0003,
        0x0000_0000,
        0x0117_0003,
        0x0148_0003,
        0x0000_0000,
        0x0148_0003,
        0x015c_0003,
        0x0100_0000,
        0x005c_0003,
    ];
    let mut list = [0; 48];
    let _ = words::put_words(&mut list, &commands);
    list
}

// Puts a number and a last byte behind it at the place that comes next.
fn put_field(line: &mut Writer, value: u32, last: u8)
    requires { line.old.at + length (ended value last) ≤ length line.old.room.now }
    ensures value { line.new.at ≡ line.old.at + length (ended value last) }
    ensures room_after { line.new.room.now ≡ sets line.old.room.now line.old.at (ended value last) }
    ensures same_room { line.new.room.ghost_name ≡ line.old.room.ghost_name }
{
    line.number(value);
    line.text(&[last]);
}

// How many bytes a sender's name has, with the blank behind it.
fn name_length(sender: u8) -> usize
    ensures { result ≡ length (name_of sender) }
{
    match sender {
        walk::KIT => 4,
        walk::PUPIL => 6,
        _ => words::places(sender as u32) + 1,
    }
}

// Puts a sender's name and a blank behind it at the place that comes next.
fn put_name(line: &mut Writer, sender: u8)
    requires { line.old.at + length (name_of sender) ≤ length line.old.room.now }
    ensures value { line.new.at ≡ line.old.at + length (name_of sender) }
    ensures room_after { line.new.room.now ≡ sets line.old.room.now line.old.at (name_of sender) }
    ensures same_room { line.new.room.ghost_name ≡ line.old.room.ghost_name }
{
    match sender {
        walk::KIT => line.text(b"kit "),
        walk::PUPIL => line.text(b"pupil "),
        _ => put_field(line, sender as u32, BLANK),
    }
}

// What the line of a record says, by the record's place from 0.
fn fields_at(records: &[u8], place: usize) -> Fields
    requires { place < length records.now / record_length }
    ensures { result ≡ fields_at records.now place }
{
    let at = place * report::RECORD;
    Fields {
        sender: words::byte_at(records, at),
        number: words::word_at(records, at + report::NUMBER_AT),
        code: words::byte_at(records, at + report::CODE_AT) as u32,
        par: words::byte_at(records, at + report::PAR_AT) as u32,
        value: words::word_at(records, at + report::VALUE_AT),
    }
}

// How many bytes a line has.
fn line_length(fields: Fields) -> usize
    ensures { result ≡ length (line_of fields) }
{
    name_length(fields.sender)
        + words::places(fields.number)
        + words::places(fields.code)
        + words::places(fields.par)
        + words::places(fields.value)
        + 4
}

// Puts a line into a room, from a place on, and says which place comes next.
fn put_line(room: &mut [u8], at: usize, fields: Fields) -> usize
    requires { at + length (line_of fields) ≤ length room.old }
    ensures value { result ≡ at + length (line_of fields) }
    ensures room_after { room.new ≡ sets room.old at (line_of fields) }
{
    let mut line = Writer { room, at };
    put_name(&mut line, fields.sender);
    put_field(&mut line, fields.number, BLANK);
    put_field(&mut line, fields.code, BLANK);
    put_field(&mut line, fields.par, BLANK);
    put_field(&mut line, fields.value, LINE_FEED);
    line.at
}

// Is there room for the text of a report in so many bytes? They are counted down line by line, since the sum might be too large a number.
fn fits(records: &[u8], room: usize) -> bool
    ensures { result ≡ leb (length (report_text records.now)) room }
{
    if room < HEADER {
        return false;
    }
    let mut left = room - HEADER;
    for line in 0..records.len() / report::RECORD {
        let length = line_length(fields_at(records, line));
        if left < length {
            return false;
        }
        left -= length;
    }
    true
}

// Puts a line for each whole record into a room, from a place on, and says which place comes next.
fn put_lines(room: &mut [u8], from: usize, records: &[u8]) -> usize
    requires { from + length (lines_of records.now) ≤ length room.old }
    ensures value { result ≡ from + length (lines_of records.now) }
    ensures room_after { room.new ≡ sets room.old from (lines_of records.now) }
{
    let mut at = from;
    for place in 0..records.len() / report::RECORD {
        at = put_line(room, at, fields_at(records, place));
    }
    at
}

/// Puts the text of a report, the header and a line for each whole record, at the front of a room, and says how many bytes it has; the rest of the room
/// stays as it was. `TEXT` bytes are enough for the records of a run.
///
/// # Errors
///
/// `NoRoom` (24) where the text has too little room, which then stays as it was. Rules: "The list program".
pub fn put_report(room: &mut [u8], records: &[u8]) -> Result<usize, NoRoom>
    ensures result_value { answer_of result ≡ answer_for (report_text records.now) room.old }
    ensures room_after { room.new ≡ written (report_text records.now) room.old }
    ensures records_len_bound { length (report_text records.now) ≤ text_room (length records.now) }
{
    if !fits(records, room.len()) {
        return Err(NoRoom);
    }
    let at = words::put_at(room, 0, b"from no code par val\n");
    Ok(put_lines(room, at, records))
}
