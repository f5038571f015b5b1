//! Writing a command at the front of a room: codes 8, then 9 or 10, then 24.
ghost use Rattle.std.specs.Prelude.{is_ok, ◌≤◌, ◌≡◌, [], ◌∷◌};
ghost use Rattle.words.specs.BigEndian.{has_room, written};
ghost use Rattle.wire.specs.Write.{packed_of, head_of, closed, command_bytes, wrote_of, wrote_at, room_after};
ghost use Rattle.wire.specs.Steps.{wrote_allowed};

use super::judging::{Refusal, judge};
use super::kinds::{Command, parts_of};
use super::table::{Layout, row_of};
use words::NoRoom;

// The first word: opcode, flag and length.
fn head_of(opcode: u16, flag: bool, words: u16) -> u32
    requires { words ≤ 32 }
    ensures { result ≡ head_of opcode flag words }
{
    if flag {
        (opcode as u32) * 65536 + 32768 + (words as u32)
    } else {
        (opcode as u32) * 65536 + (words as u32)
    }
}

// One writer to each number of words: each knows its words and their sum. One over a slice would write the words first, and leave a room that is too short
// for the sum half written.
fn put_bare(room: &mut [u8], head: u32) -> Result<(), NoRoom>
    ensures value { is_ok result ≡ has_room (closed (head ∷ [])) room.old }
    ensures room_after { room.new ≡ written (closed (head ∷ [])) room.old }
{
    words::put_words(room, &[head, head])
}

fn put_one(room: &mut [u8], head: u32, one: u32) -> Result<(), NoRoom>
    ensures value { is_ok result ≡ has_room (closed (head ∷ one ∷ [])) room.old }
    ensures room_after { room.new ≡ written (closed (head ∷ one ∷ [])) room.old }
{
    words::put_words(room, &[head, one, head ^ one])
}

fn put_two(room: &mut [u8], head: u32, one: u32, two: u32) -> Result<(), NoRoom>
    ensures value { is_ok result ≡ has_room (closed (head ∷ one ∷ two ∷ [])) room.old }
    ensures room_after { room.new ≡ written (closed (head ∷ one ∷ two ∷ [])) room.old }
{
    words::put_words(room, &[head, one, two, head ^ one ^ two])
}

// The whole command, its arguments laid out behind the first word and the sum behind them.
fn put_laid_out(
    room: &mut [u8],
    layout: Layout,
    head: u32,
    first: u32,
    second: u32,
) -> Result<(), NoRoom>
    ensures value { is_ok result ≡ has_room (closed (head ∷ packed_of layout first second)) room.old }
    ensures room_after { room.new ≡ written (closed (head ∷ packed_of layout first second)) room.old }
{
    match layout {
        Layout::Bare => put_bare(room, head),
        Layout::Byte => put_one(room, head, first % 256 * 16777216),
        Layout::Half => put_one(room, head, first % 65536 * 65536),
        Layout::Halves => put_one(room, head, first % 65536 * 65536 + second % 65536),
        Layout::Singles => put_two(room, head, first, second),
    }
}

// A command that passed codes 8 to 10.
fn write_allowed(command: Command, room: &mut [u8]) -> Result<usize, Refusal>
    ensures result_value { wrote_of result ≡ wrote_allowed command room.old }
    ensures room_after { room.new ≡ written (command_bytes command) room.old }
{
    let parts = parts_of(command.kind);
    let row = row_of(parts.form);
    let head = head_of(row.opcode, command.flag, row.words);
    put_laid_out(room, row.layout, head, parts.first, parts.second)?;
    Ok(row.words as usize * words::WORD)
}

/// Writes a command at the front of a room, and says how many bytes it takes; the rest of the room stays as it was.
///
/// # Errors
///
/// 8, then 9 or 10, as `judge` finds them, then `Refusal::NoRoom` (24). The room is then as it was. Rules: "A command on the wire", "Codes, in the order they are tried".
pub fn write_command(command: Command, room: &mut [u8]) -> Result<usize, Refusal>
    ensures result_value { wrote_of result ≡ wrote_at command room.old }
    ensures room_after { room.new ≡ room_after command room.old }
{
    judge(command)?;
    write_allowed(command, room)
}
