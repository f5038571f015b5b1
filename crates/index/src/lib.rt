//! An index beside a list: where each command's bytes begin. It is built anew, or extended from an earlier one when its list has grown; a command is then
//! looked up without a walk. Rules: "Jump to a command".
#![tactic(auto)]

ghost use Rattle.std.specs.Prelude.{◌+◌, ◌-◌, ◌≤◌, ◌≡◌, length};
ghost use Rattle.std.proofs.Common.{rules};
ghost use Rattle.std.proofs.lemmas.List.Edits.{sets};
ghost use Rattle.walk.specs.Shown.{Placed};
ghost use Rattle.index.specs.Index.{last_of};
ghost use Rattle.index.specs.Answers.{unfit, refusal_code, answer_of, built_as, room_after};
ghost use Rattle.index.specs.Found.{place_by, found_of, found_at};
ghost use Rattle.index.specs.Steps.{climbing, Gathered};

use walk::Commands;
use words::Code;

/// The most offsets of an index: a list that is taken has no more commands.
pub const MOST: usize = 512;

/// Why there is no index.
#[derive(Clone, Copy, Debug, PartialEq, Eq)]
pub enum Refusal {
    /// The list has more bytes than a list may have (20).
    TooLong,
    /// The offsets that were handed in are such as no index of the list has (54).
    BadOffsets,
    /// The room has fewer places than the index needs (24).
    NoRoom,
}

impl Code for Refusal {
    ghost code = { refusal_code };

    ghost refuses = { Prim.search rules };

    fn code(&self) -> u8 {
        match self {
            Refusal::TooLong => 20,
            Refusal::BadOffsets => 54,
            Refusal::NoRoom => 24,
        }
    }
}

// Do these offsets rise, each below this end?
fn climbs(old: &[u16], end: usize) -> bool
    ensures { result ≡ climbing 0 end old.now }
{
    let mut least: usize = 0;
    for &offset in old {
        let at = offset as usize;
        if at < least || end <= at {
            return false;
        }
        least = at + 1;
    }
    true
}

// Are these offsets such as no index of a list of so many bytes has?
fn are_unfit(old: &[u16], end: usize) -> bool
    ensures { result ≡ unfit end old.now }
{
    match old {
        [] => false,
        [first, ..] => MOST < old.len() || *first != 0 || !climbs(old, end),
    }
}

// Puts where the commands from a place on begin at the front of a buffer, and says how many they are.
fn gather(list: &[u8], from: usize, buffer: &mut [u16]) -> usize
    requires list_len_bound { length list.now ≤ 4096 }
    requires from_bound { from ≤ length list.now }
    requires in_bounds { 512 ≤ length buffer.old }
    ensures { Gathered list.now from buffer.new result }
{
    let mut n: usize = 0;
    for rest in Commands::new(&list[from..]) {
        buffer[n] = (list.len() - rest.len()) as u16;
        n += 1;
    }
    n
}

// Puts offsets into a room, from a place on.
fn put_offsets(room: &mut [u16], at: usize, offsets: &[u16])
    requires { at + length offsets.now ≤ length room.old }
    ensures { room.new ≡ sets room.old at offsets.now }
{
    room[at..at + offsets.len()].copy_from_slice(offsets);
}

// How many offsets stay: all but the last.
fn kept_of(old: &[u16]) -> usize
    ensures { result ≡ length old.now - 1 }
{
    old.len().saturating_sub(1)
}

// The last offset, from where the list is walked. Where there is none that is 0, as the walk begins at the front then, so no `Option`.
fn last_of(old: &[u16]) -> usize
    ensures { result ≡ last_of old.now }
{
    old.last().copied().unwrap_or(0) as usize
}

/// Puts the index of a list at the front of a room and says how many offsets it has; places behind them stay as they were. `old` has the offsets of an
/// earlier index, built before the list grew at its end, which is extended; with none it is built anew.
///
/// # Errors
///
/// `TooLong` (20) where the list has more than `walk::LONGEST` bytes, then `BadOffsets` (54) where `old` has more than `MOST` offsets or such as no index of
/// the list has, then `NoRoom` (24). The room is then as it was. Rules: "Jump to a command".
pub fn build(list: &[u8], old: &[u16], room: &mut [u16]) -> Result<usize, Refusal>
    ensures result_value { answer_of result ≡ built_as list.now old.now room.old }
    ensures room_after { room.new ≡ room_after list.now old.now room.old }
{
    if walk::LONGEST < list.len() {
        return Err(Refusal::TooLong);
    }
    if are_unfit(old, list.len()) {
        return Err(Refusal::BadOffsets);
    }
    let kept = kept_of(old);
    let mut buffer = [0u16; MOST];
    let found = gather(list, last_of(old), &mut buffer);
    let count = kept + found;
    if MOST < count || room.len() < count {
        return Err(Refusal::NoRoom);
    }
    put_offsets(room, 0, &old[..kept]);
    put_offsets(room, kept, &buffer[..found]);
    Ok(count)
}

// Where the command of a number begins by an index; the list's length where there is none, and no `Option`, since from there on there are no bytes.
fn place_of(list: &[u8], offsets: &[u16], number: u32) -> usize
    ensures { result ≡ place_by list.now offsets.now number }
{
    if walk::LONGEST < list.len() || number == 0 {
        return list.len();
    }
    match offsets.get(number as usize - 1) {
        Some(&offset) => offset as usize,
        None => list.len(),
    }
}

/// The bytes of the command of a number, from 1: a part of the list, empty where the offsets have no such command or the list has more than `walk::LONGEST`
/// bytes.
pub fn look_up<'a, 'b>(list: &'a [u8], offsets: &'b [u16], number: u32) -> &'a [u8]
    ensures result_value { result.now ≡ found_of list.now offsets.now number }
    ensures placed { Placed list.entry result (found_at list.now offsets.now number) }
{
    walk::bytes_at(list, place_of(list, offsets, number))
}
