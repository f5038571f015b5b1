//! From the stored form of a list to the raw list: all of it is judged and made first, and only then is the room touched.
ghost use Rattle.std.specs.Prelude.{◌≡◌, length};
ghost use Rattle.wire.specs.Judge.{judge_code};
ghost use Rattle.wire.specs.Write.{command_bytes};
ghost use Rattle.card.specs.List.{said_from, first_at, count_at};
ghost use Rattle.card.specs.Answers.{answer_of, raw_by, from_card};
ghost use Rattle.card.specs.Steps.{got_of, end_after, buffer_after, AsSaid};

use super::answers::{Fault, Refused};
use super::command::{Stored, command_at};
use super::number::number_at;
use super::storing::FIRST;
use wire::Command;

// How many bytes a command has on the wire.
#[tactic(auto, using(wire::proofs::Lengths::length_command))]
fn command_length(command: Command) -> usize
    ensures { result ≡ length (command_bytes command) }
{
    let parts = wire::parts_of(command.kind);
    let row = wire::row_of(parts.form);
    row.words as usize * words::WORD
}

// Puts an allowed command behind the first so many bytes of a buffer, and says how many there are then. Once they are too many they stay as they are, and
// a command that has too little room is counted and not made, so that what its writer answers is of no use here.
#[tactic(auto, using(crate::proofs::Gathering::command_few))]
fn put_behind(command: Command, buffer: &mut [u8], pos: usize) -> usize
    requires command_value { judge_code command ≡ 0 }
    requires value { 4096 ≡ length buffer.old }
    ensures value_2 { result ≡ end_after command pos }
    ensures buffer_after { buffer.new ≡ buffer_after command pos buffer.old }
{
    if walk::LONGEST < pos {
        return pos;
    }
    let n = command_length(command);
    let _ = wire::write_command(command, &mut buffer[pos..]);
    pos + n
}

// Puts so many stored commands, from a place on, at the front of a buffer as a raw list: how many bytes they have (more than the longest list has where
// they are too many), and where they end. Each turn passes some bytes, so that a count of commands that are not there ends with the bytes. Tried: a `Result`
// of the command, with `map_err` and `?`; slower (178 of 160 million instructions with a `match`, 23 ms of 20), and the enum is faster than both.
fn gather(s: &[u8], start: usize, count: u32, buffer: &mut [u8]) -> Result<(usize, usize), Refused>
    requires { 4096 ≡ length buffer.old }
    ensures { AsSaid result (said_from count 1 s.now start) buffer.new }
{
    let mut at = start;
    let mut pos = 0;
    for i in 0..count {
        match command_at(s, at) {
            Stored::Bad(fault) => {
                return Err(Refused {
                    number: i + 1,
                    fault,
                });
            }
            Stored::Taken(command, end) => {
                pos = put_behind(command, buffer, pos);
                at = end;
            }
        }
    }
    Ok((pos, at))
}

// The first number, which must be 1.
#[tactic(auto, unfolding(crate::specs::List::first_at))]
fn first_of(s: &[u8]) -> Result<(u32, usize), Fault>
    ensures { got_of result ≡ first_at s.now }
{
    let (first, end) = number_at(s, 0)?;
    if first != FIRST {
        return Err(Fault::NotOne);
    }
    Ok((first, end))
}

// The number of commands, behind the first number.
#[tactic(auto, unfolding(crate::specs::List::count_at))]
fn count_of(s: &[u8]) -> Result<(u32, usize), Fault>
    ensures { got_of result ≡ count_at s.now }
{
    let (_, next) = first_of(s)?;
    number_at(s, next)
}

// Behind the first two numbers.
fn commands_behind(s: &[u8], at: usize, count: u32, room: &mut [u8]) -> Result<usize, Refused>
    ensures result_value { answer_of result ≡ (raw_by (length s.now) (said_from count 1 s.now at) room.old).answer }
    ensures room_after { room.new ≡ (raw_by (length s.now) (said_from count 1 s.now at) room.old).room }
{
    let mut buffer = [0; walk::LONGEST];
    let (pos, end) = gather(s, at, count, &mut buffer)?;
    if end != s.len() {
        return Err(Fault::LeftOver.into());
    }
    if walk::LONGEST < pos {
        return Err(Fault::TooLong.into());
    }
    words::put_bytes(room, &buffer[..pos])?;
    Ok(pos)
}

/// Writes the raw list that a stored one says at the front of a room, and says how many bytes it has; the rest of the room stays as it was.
///
/// # Errors
///
/// At each number 34 and 35, then 36, 5, 38 or 8 at once; 9 or 10 behind a command's last number; 37, 20 and 24 behind the last command. The room is then as
/// it was. Rules: "Lists on a memory card".
#[tactic(auto, unfolding(crate::specs::Answers::from_card, crate::specs::List::stored_says))]
pub fn from_card(s: &[u8], room: &mut [u8]) -> Result<usize, Refused>
    ensures result_value { answer_of result ≡ (from_card s.now room.old).answer }
    ensures room_after { room.new ≡ (from_card s.now room.old).room }
{
    let (count, at) = count_of(s)?;
    commands_behind(s, at, count, room)
}
