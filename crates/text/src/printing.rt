//! The lister: a raw list command by command, each as a line of text in a buffer; only when all of them can be said is the room touched.
//! Rules: "Typed lists".
ghost use Rattle.std.specs.Prelude.{◌+◌, ◌≤◌, ◌≡◌, ◌∷◌, length};
ghost use Rattle.std.proofs.lemmas.List.Edits.{sets};
ghost use Rattle.words.specs.Text.{decimal, place_after, stored_at};
ghost use Rattle.text.specs.Split.{space};
ghost use Rattle.text.specs.Goal.{quarters_in};
ghost use Rattle.text.specs.Findings.{translated_of};
ghost use Rattle.text.specs.Lister.{fraction, said_text, arguments_text, can_say, listed_as, listed_room};
ghost use Rattle.text.specs.ListSteps.{mark, ended_line, offer_of, offered_at, Lined};

use super::findings::{Fault, Refusal};
use super::goal::quarters_in;
use super::names::name_of;
use walk::Commands;
use wire::{Command, Layout};
use words::Writer;

// The text of the longest list fits: a line is at most twice as long as its command's bytes.
const BUFFER: usize = 2 * walk::LONGEST;

// Quarters in a whole.
const WHOLE: u32 = 4;

// Can text say a command's arguments?
fn can_say(command: Command) -> bool
    ensures { result ≡ can_say command }
{
    let parts = wire::parts_of(command.kind);
    match wire::row_of(parts.form).layout {
        Layout::Bare | Layout::Byte | Layout::Half | Layout::Halves => true,
        Layout::Singles => {
            quarters_in(parts.first).is_some() && quarters_in(parts.second).is_some()
        }
    }
}

// The command at the front, where a line can say it; else the first of 1 to 10, then 33.
fn offer_at(rest: &[u8]) -> Result<Command, Fault>
    ensures { offer_of result ≡ offered_at rest.now }
{
    let command = wire::read_command(rest)?;
    if can_say(command) {
        Ok(command)
    } else {
        Err(Fault::Unsayable)
    }
}

// The writers below put their bytes at the place that comes next.

// The mark of the macro flag.
fn put_flag(line: &mut Writer, flag: bool)
    ensures value { line.new.at ≡ place_after (mark flag) line.old.at line.old.room.now }
    ensures room_after { line.new.room.now ≡ stored_at (mark flag) line.old.at line.old.room.now }
    ensures same_room { line.new.room.ghost_name ≡ line.old.room.ghost_name }
{
    if flag {
        line.text(b"+");
    }
}

// A whole number after a space.
fn put_number(line: &mut Writer, value: u32)
    requires { line.old.at + length (space ∷ decimal value) ≤ length line.old.room.now }
    ensures value { line.new.at ≡ line.old.at + length (space ∷ decimal value) }
    ensures room_after { line.new.room.now ≡ sets line.old.room.now line.old.at (space ∷ decimal value) }
    ensures same_room { line.new.room.ghost_name ≡ line.old.room.ghost_name }
{
    line.text(b" ");
    line.number(value);
}

// The end of a goal that is so many quarters above a whole number.
fn put_fraction(line: &mut Writer, quarters: u32)
    ensures value { line.new.at ≡ place_after (fraction quarters) line.old.at line.old.room.now }
    ensures room_after { line.new.room.now ≡ stored_at (fraction quarters) line.old.at line.old.room.now }
    ensures same_room { line.new.room.ghost_name ≡ line.old.room.ghost_name }
{
    match quarters {
        0 => (),
        1 => line.text(b".25"),
        2 => line.text(b".5"),
        _ => line.text(b".75"),
    }
}

// A goal after a space; the space alone where the text cannot say it.
fn put_goal(line: &mut Writer, bits: u32)
    requires { line.old.at + length (space ∷ said_text (quarters_in bits)) ≤ length line.old.room.now }
    ensures value { line.new.at ≡ line.old.at + length (space ∷ said_text (quarters_in bits)) }
    ensures room_after { line.new.room.now ≡ sets line.old.room.now line.old.at (space ∷ said_text (quarters_in bits)) }
    ensures same_room { line.new.room.ghost_name ≡ line.old.room.ghost_name }
{
    match quarters_in(bits) {
        None => line.text(b" "),
        Some(quarters) => {
            put_number(line, quarters / WHOLE);
            put_fraction(line, quarters % WHOLE);
        }
    }
}

// The arguments, each after a space.
fn put_arguments(line: &mut Writer, layout: Layout, first: u32, second: u32)
    requires { line.old.at + length (arguments_text layout first second) ≤ length line.old.room.now }
    ensures value { line.new.at ≡ line.old.at + length (arguments_text layout first second) }
    ensures room_after { line.new.room.now ≡ sets line.old.room.now line.old.at (arguments_text layout first second) }
    ensures same_room { line.new.room.ghost_name ≡ line.old.room.ghost_name }
{
    match layout {
        Layout::Bare => (),
        Layout::Byte | Layout::Half => put_number(line, first),
        Layout::Halves => {
            put_number(line, first);
            put_number(line, second);
        }
        Layout::Singles => {
            put_goal(line, first);
            put_goal(line, second);
        }
    }
}

// A command's line with its line feed, from a place on; it says which place comes next.
fn put_line(buffer: &mut [u8], at: usize, command: Command) -> usize
    requires { at + length (ended_line command) ≤ length buffer.old }
    ensures value { result ≡ at + length (ended_line command) }
    ensures buffer_after { buffer.new ≡ sets buffer.old at (ended_line command) }
{
    let parts = wire::parts_of(command.kind);
    let row = wire::row_of(parts.form);
    let mut line = Writer { room: buffer, at };
    put_flag(&mut line, command.flag);
    line.text(name_of(parts.form));
    put_arguments(&mut line, row.layout, parts.first, parts.second);
    line.text(b"\n");
    line.at
}

// A list judged, and its text put at the front of the buffer.
fn gather_lines(raw: &[u8], buffer: &mut [u8]) -> Result<usize, Refusal>
    requires { 8192 ≤ length buffer.old }
    ensures { Lined raw.now buffer.new result }
{
    if walk::LONGEST < raw.len() {
        return Err(Refusal::TooLong);
    }
    let mut number = 0;
    let mut end = 0;
    for rest in Commands::new(raw) {
        number += 1;
        match offer_at(rest) {
            Ok(command) => end = put_line(buffer, end, command),
            Err(fault) => return Err(Refusal::BadLine(number, fault)),
        }
    }
    Ok(end)
}

fn text_buffer() -> [u8; BUFFER]
    ensures { 8192 ≡ length result }
{
    [0; BUFFER]
}

/// A raw list as the text that says it, at the front of a room, and how many bytes that has; the rest of the room stays as it was. The number of a
/// refusal is a command's, from 1.
///
/// # Errors
///
/// 20 for a list above 4,096 bytes, the first bad command's first of 1 to 10, then 33, and 24 for too little room, of no command. The room is then as it was.
/// Rules: "Typed lists".
pub fn list_text(raw: &[u8], room: &mut [u8]) -> Result<usize, Refusal>
    ensures result_value { translated_of result ≡ listed_as raw.now room.old }
    ensures room_after { room.new ≡ listed_room raw.now room.old }
{
    let mut buffer = text_buffer();
    let bytes = gather_lines(raw, &mut buffer)?;
    words::put_bytes(room, &buffer[..bytes])?;
    Ok(bytes)
}
