//! From a raw list to its stored form: numbers, commands and the list, written one behind the other. All of it is judged and made in a buffer first, and
//! only then is the room touched.
ghost use Rattle.std.specs.Prelude.{◌+◌, ◌≤◌, ◌≡◌, ◌++◌, length};
ghost use Rattle.std.proofs.lemmas.List.Edits.{sets};
ghost use Rattle.card.specs.Number.{number_bytes};
ghost use Rattle.card.specs.Command.{arguments_in, numbers_bytes, stored_command};
ghost use Rattle.card.specs.List.{raw_says};
ghost use Rattle.card.specs.Answers.{answer_of, to_card};
ghost use Rattle.card.specs.Steps.{AsPacked};

use super::answers::{Fault, Refused};
use walk::Commands;
use wire::Command;
use words::NoRoom;

// The first number of a stored list.
pub const FIRST: u32 = 1;

// What one group can say is below this; and what two, three and four can.
const ONE_GROUP: u32 = 128;

const TWO_GROUPS: u32 = 16_384;

const THREE_GROUPS: u32 = 2_097_152;

const FOUR_GROUPS: u32 = 268_435_456;

// How many bytes a number takes. (Four limits, one to each length: a loop that divides would be no shorter.)
#[tactic(auto, unfolding(crate::specs::Number::groups_in, crate::specs::Number::number_bytes))]
fn number_length(value: u32) -> usize
    ensures { result ≡ length (number_bytes value) }
{
    if value < ONE_GROUP {
        1
    } else if value < TWO_GROUPS {
        2
    } else if value < THREE_GROUPS {
        3
    } else if value < FOUR_GROUPS {
        4
    } else {
        5
    }
}

// Writes a number into a room, from a place on, and says which place comes next. (`while`: the turns end with what is left of the number, and no iterator of
// the library divides one. Room and place are no `words::Writer`: that leaves out what does not fit, where these ask that all fits.)
fn put_number(room: &mut [u8], at: usize, value: u32) -> usize
    requires { at + length (number_bytes value) ≤ length room.old }
    ensures value { result ≡ at + length (number_bytes value) }
    ensures room_after { room.new ≡ sets room.old at (number_bytes value) }
{
    let mut left = value;
    let mut i = at;
    while ONE_GROUP <= left {
        room[i] = (left % ONE_GROUP + ONE_GROUP) as u8;
        left /= ONE_GROUP;
        i += 1;
    }
    room[i] = left as u8;
    i + 1
}

// Writes so many of two arguments into a room, from a place on, and says which place comes next. (One loop over the numbers of a command, in place of this
// and of the chain in `put_command`, was tried: storing a list took a third longer.)
fn put_arguments(room: &mut [u8], at: usize, many: usize, first: u32, second: u32) -> usize
    requires { at + length (numbers_bytes (arguments_in many first second)) ≤ length room.old }
    ensures value { result ≡ at + length (numbers_bytes (arguments_in many first second)) }
    ensures room_after { room.new ≡ sets room.old at (numbers_bytes (arguments_in many first second)) }
{
    if many < 1 {
        return at;
    }
    let next = put_number(room, at, first);
    if many < 2 {
        return next;
    }
    put_number(room, next, second)
}

// Writes a command into a room, from a place on, and says which place comes next.
fn put_command(room: &mut [u8], at: usize, command: Command) -> usize
    requires { at + length (stored_command command) ≤ length room.old }
    ensures value { result ≡ at + length (stored_command command) }
    ensures room_after { room.new ≡ sets room.old at (stored_command command) }
{
    let parts = wire::parts_of(command.kind);
    let row = wire::row_of(parts.form);
    let flag_at = put_number(room, at, row.opcode as u32);
    let arguments_at = put_number(room, flag_at, command.flag as u32);
    let many = wire::arguments_of(row.layout);
    put_arguments(room, arguments_at, many, parts.first, parts.second)
}

// Puts the commands of a raw list at the front of a buffer, in stored form: how many they are, and how many bytes they have there. In stored form none is
// longer than it was. (It counts the commands itself: how many there are is wanted
// behind the last, when an `enumerate` is used up. A `match`: with `map_err` and `?` a list took a quarter longer.)
fn pack(list: &[u8], buffer: &mut [u8]) -> Result<(u32, usize), Refused>
    requires list_len_bound { length list.now ≤ 4096 }
    requires value { 4096 ≡ length buffer.old }
    ensures { AsPacked result (raw_says list.now) buffer.new }
{
    let mut pos = 0;
    let mut count = 0;
    for rest in Commands::new(list) {
        count += 1;
        match wire::read_command(rest) {
            Ok(command) => pos = put_command(buffer, pos, command),
            Err(refusal) => {
                return Err(Refused {
                    number: count,
                    fault: Fault::Wire(refusal),
                });
            }
        }
    }
    Ok((count, pos))
}

// Puts the first two numbers and the commands at the front of a room. (Two calls: a loop over two numbers would be longer.)
fn put_list(room: &mut [u8], count: u32, commands: &[u8])
    requires { length (number_bytes 1 ++ (number_bytes count ++ commands.now)) ≤ length room.old }
    ensures { room.new ≡ sets room.old 0 (number_bytes 1 ++ (number_bytes count ++ commands.now)) }
{
    let count_at = put_number(room, 0, FIRST);
    let commands_at = put_number(room, count_at, count);
    words::put_at(room, commands_at, commands);
}

/// Writes the stored form of a raw list at the front of a room, and says how many bytes it has; the rest of the room stays as it was.
///
/// # Errors
///
/// 20 for a list of more than 4,096 bytes; then the first bad command's code of 1 to 10, with its number; then 24. The room is then as it was. Rules: "Lists
/// on a memory card".
#[tactic(auto, unfolding(crate::specs::Answers::to_card))]
pub fn to_card(list: &[u8], room: &mut [u8]) -> Result<usize, Refused>
    ensures result_value { answer_of result ≡ (to_card list.now room.old).answer }
    ensures room_after { room.new ≡ (to_card list.now room.old).room }
{
    if walk::LONGEST < list.len() {
        return Err(Fault::TooLong.into());
    }
    let mut buffer = [0; walk::LONGEST];
    let (count, pos) = pack(list, &mut buffer)?;
    let bytes = number_length(FIRST) + number_length(count) + pos;
    if room.len() < bytes {
        return Err(NoRoom.into());
    }
    put_list(room, count, &buffer[..pos]);
    Ok(bytes)
}
