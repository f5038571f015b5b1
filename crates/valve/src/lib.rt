//! The gas valve's frame of 64 bytes, 32 words of 16 bits: reading (40 to 44) and writing (24). The valve itself is in `state`.
#![tactic(auto)]

ghost use Rattle.std.specs.List.{flat_map, list_all};
ghost use Rattle.std.specs.Prelude.{IsTrue, ◌↔◌, replicate, ◌≡◌, ◌==◌, ◌/◌, ◌%◌, ◌≤◌, ◌≢◌, length, take, drop, if◌then◌else◌, IfSome, IsNone};
ghost use Rattle.std.proofs.lemmas.List.Edits.{sets};
ghost use Rattle.words.specs.BigEndian.{written};
ghost use Rattle.valve.specs.Frame.{words_in, checksum, act_words, head_of, bytes_of, front_words, bytes_with, frame_bytes, framed};
ghost use Rattle.valve.specs.declared.Act.{Act};
ghost use Rattle.valve.specs.Answers.{answer_of, read_of, wrote_of, write_code};

mod refusal;
mod state;

pub use refusal::Refusal;
pub use state::Valve;
use std::array;
use words::NoRoom;

/// What a frame asks of the valve: to arm, or to fire with a code.
#[derive(Clone, Copy, Debug, PartialEq, Eq)]
pub enum Act {
    Arm,
    Fire(u16),
}

/// A frame: the two flags above the identifier, bit 15 and bit 14 of word 0, and what it asks. The sum is no field: the writer makes it.
#[derive(Clone, Copy, Debug, PartialEq, Eq)]
pub struct Frame {
    pub ocpl: bool,
    pub quiet: bool,
    pub act: Act,
}

/// The bytes of a frame.
pub const SIZE: usize = 64;

// The bytes of a word.
const WORD: usize = 2;

// How many words stand at the front, how many of them are summed up, word 0 first, and the place of the sum. The rest must be zero: so many bytes.
const FRONT: usize = 6;

const SUMMED: usize = 5;

const SUM: usize = 5;

const ZEROS: usize = 52;

// The flags of word 0, and the identifier, which stands below them.
const OCPL: u16 = 0x8000;

const QUIET: u16 = 0x4000;

const IDENTIFIER: u16 = 0x000e;

// What words 1 and 3 hold where they ask for something, and the mask that arms.
const YES: u16 = 0xffff;

const MASK: u16 = 0x0001;

// Words 1 to 4 of an act.
fn words_of(act: Act) -> [u16; 4]
    ensures { result ≡ act_words act }
{
    match act {
        Act::Arm => [YES, MASK, 0, 0],
        Act::Fire(code) => [0, 0, YES, code],
    }
}

// The act whose words stand in words 1 to 4, the firing code as it may be.
fn asked(front: [u16; 6]) -> Option<Act>
    ensures some { IfSome result (λ act. take 4 (drop 1 front) ≡ act_words act) }
    ensures none { IsNone result → (act : Act) → take 4 (drop 1 front) ≢ act_words act }
{
    match front {
        [_, YES, MASK, 0, 0, _] => Some(Act::Arm),
        [_, 0, 0, YES, code, _] => Some(Act::Fire(code)),
        _ => None,
    }
}

// Words 0 to 5 of some bytes.
fn front_of(s: &[u8]) -> [u16; 6]
    ensures { result ≡ words_in s.now 0 6 }
{
    array::from_fn(|i| words::half_at(s, i * WORD))
}

// The sum of words, in 16 bits.
fn checksum(summed: &[u16]) -> u16
    ensures { result ≡ checksum summed.now }
{
    summed.iter().fold(0, |sum, &word| sum.wrapping_add(word))
}

// Are these as many zeros as stand behind the front?
fn all_zero(bytes: &[u8]) -> bool
    ensures { IsTrue result ↔ (bytes.now ≡ replicate 52 0) }
{
    bytes == [0; ZEROS].as_slice()
}

// The frame that asks for this, with the flags of word 0.
fn framed(head: u16, act: Act) -> Frame
    ensures { result ≡ framed head act }
{
    Frame {
        ocpl: head / OCPL == 1,
        quiet: head / QUIET % 2 == 1,
        act,
    }
}

/// The frame that these bytes are.
///
/// # Errors
///
/// 40 to 44, the first that is due in that order. Rules: "The gas valve".
pub fn read_frame(s: &[u8]) -> Result<Frame, Refusal>
    ensures { answer_of result ≡ read_of s.now }
{
    if s.len() != SIZE {
        return Err(Refusal::WrongSize);
    }
    let front = front_of(s);
    if front[SUM] != checksum(&front[..SUMMED]) {
        return Err(Refusal::WrongSum);
    }
    if front[0] % QUIET != IDENTIFIER {
        return Err(Refusal::WrongIdentifier);
    }
    if !all_zero(&s[FRONT * WORD..]) {
        return Err(Refusal::NotZero);
    }
    let act = asked(front).ok_or(Refusal::NoPattern)?;
    Ok(framed(front[0], act))
}

// A flag in word 0: its bit where it is set.
fn flag(set: bool, bit: u16) -> u16
    ensures { result ≡ (if set then bit else 0) }
{
    if set { bit } else { 0 }
}

// Words 0 to 5 of a frame by its word 0 and its act.
fn front_words(head: u16, act: Act) -> [u16; 6]
    ensures { result ≡ front_words head act }
{
    let [first, second, third, fourth] = words_of(act);
    let sum = checksum(&[head, first, second, third, fourth]);
    [head, first, second, third, fourth, sum]
}

// The bytes of six words, the high one first.
fn front_bytes(front: [u16; 6]) -> [[u8; 2]; 6]
    ensures { flat_map (λ pair. pair) result ≡ bytes_of front }
{
    let [a, b, c, d, e, f] = front;
    [
        a.to_be_bytes(),
        b.to_be_bytes(),
        c.to_be_bytes(),
        d.to_be_bytes(),
        e.to_be_bytes(),
        f.to_be_bytes(),
    ]
}

// Word 0 of a frame.
fn head_of(f: Frame) -> u16
    ensures { result ≡ head_of f }
{
    flag(f.ocpl, OCPL) + flag(f.quiet, QUIET) + IDENTIFIER
}

// The frame with this word 0 and this act at the front of a room that has its bytes.
fn put_frame(room: &mut [u8], head: u16, act: Act)
    requires { 64 ≤ length room.old }
    ensures { room.new ≡ sets room.old 0 (bytes_with head act) }
{
    let front = front_bytes(front_words(head, act));
    let next = words::put_at(room, 0, front.as_flattened());
    words::put_at(room, next, &[0; ZEROS]);
}

/// Writes a frame at the front of a room; the rest of the room stays as it was. Each act has an arm of its own, in which the compiler knows most of the
/// words.
///
/// # Errors
///
/// `NoRoom` (24) where the room has fewer than 64 bytes. It is then as it was.
pub fn write_frame(f: Frame, room: &mut [u8]) -> Result<(), NoRoom>
    ensures result_value { wrote_of result ≡ write_code f room.old }
    ensures room_after { room.new ≡ written (frame_bytes f) room.old }
{
    if room.len() < SIZE {
        return Err(NoRoom);
    }
    match f.act {
        Act::Arm => put_frame(room, head_of(f), Act::Arm),
        Act::Fire(code) => put_frame(room, head_of(f), Act::Fire(code)),
    }
    Ok(())
}
