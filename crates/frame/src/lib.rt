//! The status frame of 32 bytes: its fields, the rules on them, reading (22, then 23) and writing (23, then 24).
#![tactic(auto)]

ghost use Rattle.std.proofs.Common.{rules};
ghost use Rattle.std.specs.Int.Count.{ones};
ghost use Rattle.std.specs.List.{flat_map};
ghost use Rattle.std.specs.Prelude.{◌+◌, ◌≤◌, ◌≡◌, ◌&&◌, [], ◌∷◌, ◌++◌, eqb};
ghost use Rattle.words.specs.BigEndian.{half_bytes};
ghost use Rattle.wire.specs.Table.{row_of};
ghost use Rattle.wire.specs.Judge.{first_bad};
ghost use Rattle.frame.specs.Rules.{intervals_hold, ranges_hold, macro_or_none, numbers_hold, left_holds, marked, marks_hold, frame_rule};
ghost use Rattle.frame.specs.Bytes.{modes_of, frame_bytes, pace_at, frame_at, spare_bits_zero, count_holds};
ghost use Rattle.frame.specs.Answers.{code_of, answer_of, read_of, wrote_of, write_code, room_after};
ghost use Rattle.frame.specs.declared.Refusal.TheVariants.{NoRoom};

use wire::Form;
use words::{Code, NoRoom};

/// A series of images as the frame has it: the seconds that it still runs, 65535 of them for ever, the interval in seconds, the images so far.
#[derive(Clone, Copy, Debug, PartialEq, Eq)]
pub struct Pace {
    pub time: u16,
    pub interval: u16,
    pub count: u16,
}

/// The fields of a frame. The goal's numbers are the bits of its singles; `running` and `opened` are a macro's number, or 255 for none; `left` is in seconds;
/// bit m of `closed` marks macro m. The number of ones in these marks is no field: the writer counts it. Rules: "Status frame, 32 bytes".
#[derive(Clone, Copy, Debug, PartialEq, Eq)]
pub struct Frame {
    pub image: Pace,
    pub track: Pace,
    pub x: u16,
    pub y: u16,
    pub xgoal: u32,
    pub ygoal: u32,
    pub power: bool,
    pub auto: bool,
    pub looping: bool,
    pub algorithm: u8,
    pub flushes: u8,
    pub running: u8,
    pub opened: u8,
    pub left: u16,
    pub closed: u8,
}

/// Why a frame is refused: 22 and 23 in reading, 23 and 24 in writing.
#[derive(Clone, Copy, Debug, PartialEq, Eq)]
pub enum Refusal {
    WrongSize,
    RuleBroken,
    NoRoom,
}

impl Code for Refusal {
    ghost code = { code_of };

    ghost refuses = { Prim.search rules };

    fn code(&self) -> u8 {
        match self {
            Refusal::WrongSize => 22,
            Refusal::RuleBroken => 23,
            Refusal::NoRoom => 24,
        }
    }
}

impl From<NoRoom> for Refusal {
    ghost from_gives = { λ _ refusal. refusal ≡ NoRoom };

    fn from(_: NoRoom) -> Refusal {
        Refusal::NoRoom
    }
}

/// The bytes of a frame.
pub const SIZE: usize = 32;

// `running` and `opened` are bytes with 255 for none, and no `Option`: `frame_at` says what bytes say that break the rules, and `obeys` is asked of any.
// How many macros there are, the number that stands for none, and the longest a macro runs, in seconds.
const MACROS: u8 = 8;

const NONE: u8 = 255;

const LONGEST: u16 = 600;

fn intervals_hold(f: Frame) -> bool
    ensures { result ≡ intervals_hold f }
{
    1 <= f.image.interval && 1 <= f.track.interval
}

// Would a command of this form have both arguments in range?
fn in_range(form: Form, first: u32, second: u32) -> bool
    ensures { result ≡ eqb (first_bad (row_of form) first second) 0 }
{
    wire::first_bad(wire::row_of(form), first, second).is_none()
}

fn ranges_hold(f: Frame) -> bool
    ensures { result ≡ ranges_hold f }
{
    in_range(Form::ImgRegion, u32::from(f.x), u32::from(f.y))
        && in_range(Form::TrkGoal, f.xgoal, f.ygoal)
        && in_range(Form::TrkAlg, u32::from(f.algorithm), 0)
}

fn macro_or_none(m: u8) -> bool
    ensures { result ≡ macro_or_none m }
{
    m < MACROS || m == NONE
}

fn numbers_hold(f: Frame) -> bool
    ensures { result ≡ numbers_hold f }
{
    macro_or_none(f.running) && macro_or_none(f.opened)
}

fn left_holds(f: Frame) -> bool
    ensures { result ≡ left_holds f }
{
    (f.left == 0) == (f.running == NONE) && f.left <= LONGEST
}

// Bit m of a byte of marks.
fn is_marked(marks: u8, m: u8) -> bool
    ensures { result ≡ marked marks m }
{
    m < MACROS && (marks >> m) % 2 == 1
}

fn marks_hold(f: Frame) -> bool
    ensures { result ≡ marks_hold f }
{
    (f.running == NONE || is_marked(f.closed, f.running)) && !is_marked(f.closed, f.opened)
}

/// Do the fields obey the rules on them? Rules: "The reader demands".
#[tactic(auto, unfolding(crate::specs::Rules::frame_rule))]
pub fn obeys(f: Frame) -> bool
    ensures { result ≡ frame_rule f }
{
    intervals_hold(f) && ranges_hold(f) && numbers_hold(f) && left_holds(f) && marks_hold(f)
}

// A series: its time, the interval behind it, and its count elsewhere.
fn pace_at(s: &[u8], time: usize, count: usize) -> Pace
    requires { time ≤ 32 }
    ensures { result ≡ pace_at s.now time count }
{
    Pace {
        time: words::half_at(s, time),
        interval: words::half_at(s, time + 2),
        count: words::half_at(s, count),
    }
}

// The fields that these bytes say.
fn frame_at(s: &[u8]) -> Frame
    ensures { result ≡ frame_at s.now }
{
    let modes = words::byte_at(s, 24);
    Frame {
        image: pace_at(s, 0, 8),
        track: pace_at(s, 4, 10),
        x: words::half_at(s, 12),
        y: words::half_at(s, 14),
        xgoal: words::word_at(s, 16),
        ygoal: words::word_at(s, 20),
        power: modes % 2 == 1,
        auto: modes / 2 % 2 == 1,
        looping: modes / 4 % 2 == 1,
        algorithm: modes / 16 % 4,
        flushes: words::byte_at(s, 25),
        running: words::byte_at(s, 26),
        opened: words::byte_at(s, 27),
        left: words::half_at(s, 28),
        closed: words::byte_at(s, 30),
    }
}

// Bits 3, 6 and 7 of byte 24.
fn spare_bits_zero(s: &[u8]) -> bool
    ensures { result ≡ spare_bits_zero s.now }
{
    let modes = words::byte_at(s, 24);
    modes / 8 % 2 == 0 && modes / 64 == 0
}

fn count_holds(s: &[u8]) -> bool
    ensures { result ≡ count_holds s.now }
{
    let ones = words::byte_at(s, 30).count_ones();
    u32::from(words::byte_at(s, 31)) == ones
}

// Do these bytes, which say these fields, obey every rule?
fn rules_hold(s: &[u8], f: Frame) -> bool
    ensures { result ≡ (spare_bits_zero s.now && count_holds s.now && frame_rule f) }
{
    spare_bits_zero(s) && count_holds(s) && obeys(f)
}

/// The frame that these bytes are.
///
/// # Errors
///
/// 22 where they are not 32, then 23 where they break a rule. Rules: "Status frame, 32 bytes", "The reader demands".
#[tactic(auto, unfolding(crate::specs::Answers::read_of, crate::specs::Answers::read_code))]
pub fn read_frame(s: &[u8]) -> Result<Frame, Refusal>
    ensures { answer_of result ≡ read_of s.now }
{
    if s.len() != SIZE {
        return Err(Refusal::WrongSize);
    }
    let f = frame_at(s);
    if !rules_hold(s, f) {
        return Err(Refusal::RuleBroken);
    }
    Ok(f)
}

// Two numbers of 16 bits, one behind the other.
fn pair(first: u16, second: u16) -> [u8; 4]
    ensures { result ≡ half_bytes first ++ half_bytes second }
{
    let [a, b] = first.to_be_bytes();
    let [c, d] = second.to_be_bytes();
    [a, b, c, d]
}

// Byte 24.
fn modes_of(f: Frame) -> u8
    requires { f.algorithm ≤ 2 }
    ensures { result ≡ modes_of f.power f.auto f.looping f.algorithm }
{
    u8::from(f.power) + u8::from(f.auto) * 2 + u8::from(f.looping) * 4 + f.algorithm * 16
}

// Bytes 28 to 31.
fn macros_of(f: Frame) -> [u8; 4]
    ensures { result ≡ half_bytes f.left ++ (f.closed ∷ ones f.closed ∷ []) }
{
    let [high, low] = f.left.to_be_bytes();
    [high, low, f.closed, f.closed.count_ones() as u8]
}

// The bytes of a frame, four by four.
fn bytes_of(f: Frame) -> [[u8; 4]; 8]
    requires { f.algorithm ≤ 2 }
    ensures { flat_map (λ four. four) result ≡ frame_bytes f }
{
    [
        pair(f.image.time, f.image.interval),
        pair(f.track.time, f.track.interval),
        pair(f.image.count, f.track.count),
        pair(f.x, f.y),
        f.xgoal.to_be_bytes(),
        f.ygoal.to_be_bytes(),
        [modes_of(f), f.flushes, f.running, f.opened],
        macros_of(f),
    ]
}

/// Writes a frame at the front of a room; the rest of the room stays as it was.
///
/// # Errors
///
/// 23 where the fields do not obey the rules, then 24 where the room has fewer bytes than a frame. The room is then as it was.
pub fn write_frame(f: Frame, room: &mut [u8]) -> Result<(), Refusal>
    ensures result_value { wrote_of result ≡ write_code f room.old }
    ensures room_after { room.new ≡ room_after f room.old }
{
    if !obeys(f) {
        return Err(Refusal::RuleBroken);
    }
    words::put_bytes(room, bytes_of(f).as_flattened())?;
    Ok(())
}
