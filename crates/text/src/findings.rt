//! What is found wrong with a line, a command to be listed, or a whole text or list, and the answers that carry it.
ghost use Rattle.std.specs.Prelude.{◌≡◌, Err};
ghost use Rattle.wire.specs.Judge.{plain};
ghost use Rattle.text.specs.declared.findings.Fault.TheVariants.{Wire};
ghost use Rattle.text.specs.Findings.{told_fault, finding, no_room, translated_of};

use wire::{Tell, Told};
use words::NoRoom;

/// Why a line is bad, or why a command cannot be listed. Rules: "Typed lists".
#[derive(Clone, Copy, Debug, PartialEq, Eq)]
pub enum Fault {
    /// 30: the name is not in the table.
    UnknownName,
    /// 32: the number of arguments is not the command's.
    WrongCount,
    /// 31: an argument is not a number, or a goal.
    Malformed,
    /// 33: text cannot say a goal of the command.
    Unsayable,
    /// What the wire says of the command: 1 to 10, and 24 for too little room.
    Wire(wire::Refusal),
}

impl From<wire::Refusal> for Fault {
    ghost from_gives = { λ refused fault. fault ≡ Wire refused };

    fn from(refused: wire::Refusal) -> Fault {
        Fault::Wire(refused)
    }
}

/// A code with what was wrong with the number, and the line or the command that it is of: 0 where it is of none.
#[derive(Clone, Copy, Debug, PartialEq, Eq)]
pub struct Finding {
    /// The code, 0 for none, and behind code 8 which number was out of range, its value and its limits.
    pub told: Told,
    /// The number of the line or command, from 1.
    pub number: u32,
}

/// Why a text is not made into a list, or a list not into a text: it is too long, or a line or a command, by its number, is bad. Number 0 stands for a
/// fault of the whole.
#[derive(Clone, Copy, Debug, PartialEq, Eq)]
pub enum Refusal {
    /// 20: the text has more than 32,768 bytes, or the list more than 4,096.
    TooLong,
    /// The first bad line or command.
    BadLine(u32, Fault),
}

impl Tell for Fault {
    ghost told = { told_fault };

    fn told(&self) -> Told {
        match self {
            Fault::UnknownName => wire::plain(30),
            Fault::WrongCount => wire::plain(32),
            Fault::Malformed => wire::plain(31),
            Fault::Unsayable => wire::plain(33),
            Fault::Wire(refusal) => refusal.told(),
        }
    }
}

fn finding_with(told: Told, number: u32) -> Finding
    ensures { result ≡ finding told number }
{
    Finding { told, number }
}

/// What is found of the whole, and of no line or command.
pub fn of_whole(code: u8) -> Finding
    ensures { result ≡ finding (plain code) 0 }
{
    finding_with(wire::plain(code), 0)
}

/// What was found: code 0 and number 0 where nothing was.
pub fn finding_of(translated: &Result<usize, Refusal>) -> Finding
    ensures { result ≡ (translated_of translated.now).found }
{
    match translated {
        Ok(_) => of_whole(0),
        Err(Refusal::TooLong) => of_whole(20),
        Err(Refusal::BadLine(number, fault)) => finding_with(fault.told(), *number),
    }
}

/// Too little room, which is of no line.
impl From<NoRoom> for Refusal {
    ghost from_gives = { λ _ refusal. Err refusal ≡ no_room };

    fn from(_: NoRoom) -> Refusal {
        Refusal::BadLine(0, Fault::Wire(wire::Refusal::NoRoom))
    }
}
