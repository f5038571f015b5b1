//! What the wire refuses, and the rules on a decoded command: codes 8, 9 and 10, in that order.
ghost use Rattle.std.specs.Prelude.{◌≡◌, not, eqb, is_some, unwrap_or};
ghost use Rattle.wire.specs.declared.judging.Refusal.TheVariants.{NoRoom};
ghost use Rattle.wire.specs.Judge.{no_stray, told_by, plain, told_of, told_judged, in_limits, first_bad, stray_by, flag_refused, judged_by, judged};

use super::kinds::{Command, parts_of};
use super::table::{FlagRule, Layout, Row, row_of};
use words::NoRoom;

/// An argument out of range: which one it is, 1 or 2, its value, and the lowest and the highest that are allowed. A goal's are bits. All four are 0
/// where there is none.
#[derive(Clone, Copy, Debug, PartialEq, Eq, Default)]
pub struct Stray {
    pub par: u8,
    pub value: u32,
    pub low: u32,
    pub high: u32,
}

/// Why a command is refused on the wire, codes 1 to 10 and 24 in their order. `OutOfRange` has the first argument that is.
#[derive(Clone, Copy, Debug, PartialEq, Eq)]
pub enum Refusal {
    TooFewBytes,
    LengthOutOfBounds,
    CutOff,
    SumDiffers,
    UnknownOpcode,
    WrongLength,
    PadNotZero,
    OutOfRange(Stray),
    FlagForbidden,
    FlagMissing,
    NoRoom,
}

impl From<NoRoom> for Refusal {
    ghost from_gives = { λ _ refusal. refusal ≡ NoRoom };

    fn from(_: NoRoom) -> Refusal {
        Refusal::NoRoom
    }
}

/// A code, and what was wrong with the number where it is 8; code 0 is acceptance. (No `Result`, and zeros where no number was wrong: so a record says it.)
#[derive(Clone, Copy, Debug, PartialEq, Eq)]
pub struct Told {
    pub code: u8,
    pub stray: Stray,
}

/// A refusal that tells more than a code: with code 8, also what was wrong with the number.
pub trait Tell {
    ghost use Rattle.wire.specs.declared.judging.Told.{Told};

    ghost told: { Self → Told };

    /// The code of this refusal by the rules' heading "Codes, in the order they are tried", and the argument out of range where that is 8.
    fn told(&self) -> Told
        ensures { result ≡ told self.now };
}

/// A code by itself, as of an answer that tells of no number.
pub fn plain(code: u8) -> Told
    ensures { result ≡ plain code }
{
    Told {
        code,
        stray: Stray::default(),
    }
}

/// What is told of an answer: code 0 where it was accepted, else what its refusal tells.
pub fn told_of<T, E: Tell>(answer: &Result<T, E>) -> Told
    ensures { result ≡ told_by E.told answer.now }
{
    match answer {
        Ok(_) => plain(0),
        Err(refusal) => refusal.told(),
    }
}

impl Tell for Refusal {
    ghost told = { told_of };

    fn told(&self) -> Told {
        match self {
            Refusal::TooFewBytes => plain(1),
            Refusal::LengthOutOfBounds => plain(2),
            Refusal::CutOff => plain(3),
            Refusal::SumDiffers => plain(4),
            Refusal::UnknownOpcode => plain(5),
            Refusal::WrongLength => plain(6),
            Refusal::PadNotZero => plain(7),
            Refusal::OutOfRange(stray) => Told {
                code: 8,
                stray: *stray,
            },
            Refusal::FlagForbidden => plain(9),
            Refusal::FlagMissing => plain(10),
            Refusal::NoRoom => plain(24),
        }
    }
}

// The bits of minus zero, which a goal may have though they lie above its limits.
const MINUS_ZERO: u32 = 0x8000_0000;

/// Is a value within its limits? Of a goal's two singles, given by their bits, minus zero is too.
pub fn in_limits(layout: Layout, low: u32, high: u32, value: u32) -> bool
    ensures { result ≡ in_limits layout low high value }
{
    (layout == Layout::Singles && value == MINUS_ZERO) || (low <= value && value <= high)
}

/// The first argument out of the limits of this row, with its value and its limits; none where both are within.
pub fn first_bad(row: Row, first: u32, second: u32) -> Option<Stray>
    ensures found { is_some result ≡ not (eqb (first_bad row first second) 0) }
    ensures stray { unwrap_or result no_stray ≡ stray_by row first second }
{
    if !in_limits(row.layout, row.low1, row.high1, first) {
        return Some(Stray {
            par: 1,
            value: first,
            low: row.low1,
            high: row.high1,
        });
    }
    if !in_limits(row.layout, row.low2, row.high2, second) {
        return Some(Stray {
            par: 2,
            value: second,
            low: row.low2,
            high: row.high2,
        });
    }
    None
}

/// The flag against its rule.
///
/// # Errors
///
/// `FlagForbidden` (9) where it is set and may never be, `FlagMissing` (10) where it must be and is not.
pub fn judge_flag(rule: FlagRule, flag: bool) -> Result<(), Refusal>
    ensures { told_judged result ≡ flag_refused rule flag }
{
    match rule {
        FlagRule::Never if flag => Err(Refusal::FlagForbidden),
        FlagRule::Always if !flag => Err(Refusal::FlagMissing),
        _ => Ok(()),
    }
}

/// A flag and two numbers by a row of the table.
///
/// # Errors
///
/// `OutOfRange` (8), then 9 or 10.
pub fn judge_by(row: Row, flag: bool, first: u32, second: u32) -> Result<(), Refusal>
    ensures { told_judged result ≡ judged_by row flag first second }
{
    match first_bad(row, first, second) {
        Some(stray) => Err(Refusal::OutOfRange(stray)),
        None => judge_flag(row.flags, flag),
    }
}

/// A decoded command, by the row of its form.
///
/// # Errors
///
/// `OutOfRange` (8), then 9 or 10. Rules: "A command on the wire", "What is told of a number".
pub fn judge(command: Command) -> Result<(), Refusal>
    ensures { told_judged result ≡ judged command }
{
    let parts = parts_of(command.kind);
    judge_by(row_of(parts.form), command.flag, parts.first, parts.second)
}
