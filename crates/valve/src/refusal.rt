//! Why a frame is refused, and the number of each reason in the rules.
ghost use Rattle.std.specs.Prelude.{◌≡◌};
ghost use Rattle.std.proofs.Common.{rules};
ghost use Rattle.valve.specs.Answers.{code_of};

use words::Code;

/// Why a frame is refused: 40 to 44 by its bytes, 45 and 46 by the valve.
#[derive(Clone, Copy, Debug, PartialEq, Eq)]
pub enum Refusal {
    WrongSize,
    WrongSum,
    WrongIdentifier,
    NotZero,
    NoPattern,
    NotArmed,
    WrongCode,
}

impl Code for Refusal {
    ghost code = { code_of };

    ghost refuses = { Prim.search rules };

    fn code(&self) -> u8 {
        match self {
            Refusal::WrongSize => 40,
            Refusal::WrongSum => 41,
            Refusal::WrongIdentifier => 42,
            Refusal::NotZero => 43,
            Refusal::NoPattern => 44,
            Refusal::NotArmed => 45,
            Refusal::WrongCode => 46,
        }
    }
}
