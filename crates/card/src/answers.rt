//! What came of moving a list to a card or from one: how many bytes were written, or why none was.
ghost use Rattle.std.specs.Prelude.{◌≡◌};
ghost use Rattle.card.specs.declared.answers.Fault.TheVariants.{Wire};
ghost use Rattle.card.specs.Answers.{told_fault, told_refused, of_none, no_room, answer_of};

use wire::{Refusal, Tell, Told};
use words::NoRoom;

/// What can be wrong with a list that is to be moved. What `wire` refuses is a command's, or too little room.
#[derive(Clone, Copy, Debug, PartialEq, Eq)]
pub enum Fault {
    Wire(Refusal),
    TooLong,
    Ended,
    Overlong,
    NotOne,
    LeftOver,
    BadFlag,
}

/// Why a list is not moved, and the number of the command at which that was found, from 1; 0 where it belongs to none.
#[derive(Clone, Copy, Debug, PartialEq, Eq)]
pub struct Refused {
    pub number: u32,
    pub fault: Fault,
}

impl From<Refusal> for Fault {
    ghost from_gives = { λ refusal fault. fault ≡ Wire refusal };

    fn from(refusal: Refusal) -> Fault {
        Fault::Wire(refusal)
    }
}

/// A fault of the whole list, which belongs to no command.
impl From<Fault> for Refused {
    ghost from_gives = { λ fault refused. refused ≡ of_none fault };

    fn from(fault: Fault) -> Refused {
        Refused { number: 0, fault }
    }
}

/// Too little room belongs to no command either.
impl From<NoRoom> for Refused {
    ghost from_gives = { λ _ refused. refused ≡ no_room };

    fn from(_: NoRoom) -> Refused {
        Refused {
            number: 0,
            fault: Fault::Wire(Refusal::NoRoom),
        }
    }
}

impl Tell for Fault {
    ghost told = { told_fault };

    fn told(&self) -> Told {
        match self {
            Fault::Wire(refusal) => refusal.told(),
            Fault::TooLong => wire::plain(20),
            Fault::Ended => wire::plain(34),
            Fault::Overlong => wire::plain(35),
            Fault::NotOne => wire::plain(36),
            Fault::LeftOver => wire::plain(37),
            Fault::BadFlag => wire::plain(38),
        }
    }
}

impl Tell for Refused {
    ghost told = { told_refused };

    fn told(&self) -> Told {
        self.fault.told()
    }
}

/// The number of the command at which a refusal was found, from 1; 0 where it belongs to none, and where nothing was refused.
pub fn number_of(moved: &Result<usize, Refused>) -> u32
    ensures { result ≡ (answer_of moved.now).number }
{
    match moved {
        Ok(_) => 0,
        Err(refused) => refused.number,
    }
}
