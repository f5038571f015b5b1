//! The assembler, in one pass: all lines are judged and their bytes gathered, and only then is the room touched.
//! Rules: "Typed lists".
ghost use Rattle.std.specs.Prelude.{◌≡◌, length};
ghost use Rattle.words.specs.Text.{stored_at};
ghost use Rattle.wire.specs.Write.{command_bytes, list_bytes};
ghost use Rattle.text.specs.Line.{line_of};
ghost use Rattle.text.specs.Findings.{translated_of};
ghost use Rattle.text.specs.Assemble.{judged_text, assembled_as, room_after};
ghost use Rattle.text.specs.Steps.{part_of, part_for, Gathered};

use super::findings::{Fault, Refusal};
use super::line::line_of;
use super::showing::LONGEST;
use super::split::Lines;

// How many bytes a command has.
fn command_length(command: wire::Command) -> usize
    ensures { result ≡ length (command_bytes command) }
{
    let parts = wire::parts_of(command.kind);
    wire::row_of(parts.form).words as usize * words::WORD
}

// How many bytes a line adds, or its fault; the bytes are put behind the first so many of a buffer, where they have room there.
fn step_into(line: &[u8], buffer: &mut [u8], pos: usize) -> Result<usize, Fault>
    ensures result_value { part_of result ≡ part_for line.now }
    ensures buffer_after { buffer.new ≡ stored_at (list_bytes (line_of line.now).taken) pos buffer.old }
{
    let Some(command) = line_of(line)? else {
        return Ok(0);
    };
    if pos <= buffer.len() {
        let _ = wire::write_command(command, &mut buffer[pos..]);
    }
    Ok(command_length(command))
}

// A text judged, and its list put at the front of a buffer, where that is long enough.
fn gather(text: &[u8], buffer: &mut [u8]) -> Result<usize, Refusal>
    ensures { Gathered text.now buffer.new result }
{
    if LONGEST < text.len() {
        return Err(Refusal::TooLong);
    }
    let mut number = 0;
    let mut bytes = 0;
    for line in Lines::new(text) {
        number += 1;
        bytes += step_into(line, buffer, bytes).map_err(|fault| Refusal::BadLine(number, fault))?;
    }
    if walk::LONGEST < bytes {
        return Err(Refusal::TooLong);
    }
    Ok(bytes)
}

/// A text judged by itself: how many bytes its list has.
///
/// # Errors
///
/// 20 for a text above 32,768 bytes, the first bad line's code with its number, then 20 for a list above 4,096 bytes, of no line. Rules: "Typed lists".
pub fn judge_text(text: &[u8]) -> Result<usize, Refusal>
    ensures { translated_of result ≡ judged_text text.now }
{
    // No command has room in a buffer of one byte, so that nothing is put.
    let mut buffer = [0; 1];
    gather(text, &mut buffer)
}

fn list_buffer() -> [u8; walk::LONGEST]
    ensures { 4096 ≡ length result }
{
    [0; walk::LONGEST]
}

/// A text as the raw list that it says, at the front of a room, and how many bytes that has; the rest of the room stays as it was.
///
/// # Errors
///
/// Those of `judge_text`, then 24 for too little room, of no line. The room is then as it was. Rules: "Typed lists".
pub fn assemble(text: &[u8], room: &mut [u8]) -> Result<usize, Refusal>
    ensures result_value { translated_of result ≡ assembled_as text.now room.old }
    ensures room_after { room.new ≡ room_after text.now room.old }
{
    let mut buffer = list_buffer();
    let bytes = gather(text, &mut buffer)?;
    words::put_bytes(room, &buffer[..bytes])?;
    Ok(bytes)
}
