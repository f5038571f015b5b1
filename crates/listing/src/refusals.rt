//! The line that says why something was refused, and where: `refused 20`, `refused 30 line 4`, `refused 8 line 4 par 1 val 2 from 0 to 1`.
//! Rules: "The programs of typed lists".
ghost use Rattle.std.specs.Prelude.{◌+◌, ◌≤◌, ◌≡◌, length};
ghost use Rattle.std.proofs.lemmas.List.Edits.{sets};
ghost use Rattle.words.specs.BigEndian.{written};
ghost use Rattle.text.specs.Findings.{outcome};
ghost use Rattle.listing.specs.Answer.{answer_of, answer_for};
ghost use Rattle.listing.specs.Refusal.{labelled, word_of, stray_text, place_text, refusal_line, refusal_room, output_for, room_for};

use text::Finding;
use wire::Stray;
use words::{NoRoom, Writer};

// The bytes of the longest line.
const LONGEST: usize = 81;

// The code that says what was wrong with a number: it is out of range.
const OUT_OF_RANGE: u8 = 8;

/// What a finding's number counts: the lines of a text, or the commands of a raw list.
#[derive(Clone, Copy, Debug, PartialEq, Eq)]
pub enum Numbered {
    /// `line`, and the line's number.
    Lines,
    /// `number`, and the command's number.
    Commands,
}

/// What is to be written: how many bytes from the front of a room, and whether they are a refusal's line.
#[derive(Clone, Copy, Debug, PartialEq, Eq)]
pub struct Output {
    /// The bytes at the front of the room.
    pub bytes: usize,
    /// Are they the line of a refusal?
    pub refused: bool,
}

// Puts a number behind its label at the place that comes next.
fn put_labelled(line: &mut Writer, label: &[u8], value: u32)
    requires { line.old.at + length (labelled label.now value) ≤ length line.old.room.now }
    ensures value { line.new.at ≡ line.old.at + length (labelled label.now value) }
    ensures room_after { line.new.room.now ≡ sets line.old.room.now line.old.at (labelled label.now value) }
    ensures same_room { line.new.room.ghost_name ≡ line.old.room.ghost_name }
{
    line.text(label);
    line.number(value);
}

// Puts what a number counts at the place that comes next.
fn put_word(line: &mut Writer, numbered: Numbered)
    requires { line.old.at + length (word_of numbered) ≤ length line.old.room.now }
    ensures value { line.new.at ≡ line.old.at + length (word_of numbered) }
    ensures room_after { line.new.room.now ≡ sets line.old.room.now line.old.at (word_of numbered) }
    ensures same_room { line.new.room.ghost_name ≡ line.old.room.ghost_name }
{
    match numbered {
        Numbered::Lines => line.text(b" line "),
        Numbered::Commands => line.text(b" number "),
    }
}

// Puts what was wrong with a number at the place that comes next.
fn put_stray(line: &mut Writer, stray: Stray)
    requires { line.old.at + length (stray_text stray) ≤ length line.old.room.now }
    ensures value { line.new.at ≡ line.old.at + length (stray_text stray) }
    ensures room_after { line.new.room.now ≡ sets line.old.room.now line.old.at (stray_text stray) }
    ensures same_room { line.new.room.ghost_name ≡ line.old.room.ghost_name }
{
    put_labelled(line, b" par ", stray.par as u32);
    put_labelled(line, b" val ", stray.value);
    put_labelled(line, b" from ", stray.low);
    put_labelled(line, b" to ", stray.high);
}

// Puts where a finding was made at the place that comes next.
fn put_place(line: &mut Writer, numbered: Numbered, found: Finding)
    requires { line.old.at + length (place_text numbered found) ≤ length line.old.room.now }
    ensures value { line.new.at ≡ line.old.at + length (place_text numbered found) }
    ensures room_after { line.new.room.now ≡ sets line.old.room.now line.old.at (place_text numbered found) }
    ensures same_room { line.new.room.ghost_name ≡ line.old.room.ghost_name }
{
    if found.number == 0 {
        return;
    }
    put_word(line, numbered);
    line.number(found.number);
    if found.told.code != OUT_OF_RANGE {
        return;
    }
    put_stray(line, found.told.stray);
}

// Puts the line of a finding at the front of a room, and says how many bytes it has.
fn put_found(room: &mut [u8], numbered: Numbered, found: Finding) -> usize
    requires { length (refusal_line numbered found) ≤ length room.old }
    ensures value { result ≡ length (refusal_line numbered found) }
    ensures room_after { room.new ≡ sets room.old 0 (refusal_line numbered found) }
{
    let mut line = Writer { room, at: 0 };
    put_labelled(&mut line, b"refused ", found.told.code as u32);
    put_place(&mut line, numbered, found);
    line.text(b"\n");
    line.at
}

fn line_room() -> [u8; LONGEST]
    ensures { refusal_room ≡ length result }
{
    [0; LONGEST]
}

/// Puts the line of a finding at the front of a room, and says how many bytes it has; the rest of the room stays as it was. 81 bytes are enough for it.
///
/// # Errors
///
/// `NoRoom` (24) where the line has too little room, which then stays as it was. Rules: "The programs of typed lists".
pub fn put_refusal(room: &mut [u8], numbered: Numbered, found: Finding) -> Result<usize, NoRoom>
    ensures result_value { answer_of result ≡ answer_for (refusal_line numbered found) room.old }
    ensures room_after { room.new ≡ written (refusal_line numbered found) room.old }
    ensures found_len_bound { length (refusal_line numbered found) ≤ refusal_room }
{
    let mut line = line_room();
    let bytes = put_found(&mut line, numbered, found);
    words::put_bytes(room, &line[..bytes])?;
    Ok(bytes)
}

/// What is to be written of a room that a list or a text was to be made in, by what was found: its first so many bytes; or, where something was found,
/// the line that says so, which is put there instead.
/// Rules: "The programs of typed lists".
pub fn put_outcome(room: &mut [u8], numbered: Numbered, found: Finding, bytes: usize) -> Output
    ensures value { result ≡ output_for numbered (outcome found bytes) room.old }
    ensures room_after { room.new ≡ room_for numbered (outcome found bytes) room.old }
    ensures found_len_bound { length (refusal_line numbered found) ≤ refusal_room }
{
    if found.told.code != 0 {
        return Output {
            bytes: put_refusal(room, numbered, found).unwrap_or(0),
            refused: true,
        };
    }
    Output {
        bytes,
        refused: false,
    }
}
