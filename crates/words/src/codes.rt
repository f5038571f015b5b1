//! Answers: a refusal's number in the rules, and 0 for what was accepted. Rules: "Codes, in the order they are tried".
ghost use Rattle.std.specs.Prelude.{◌≡◌, ℕ, ◌<◌};
ghost use Rattle.std.proofs.Common.{rules};
ghost use Rattle.words.specs.Codes.{answer_code};

/// A refusal, by the number that the rules give it. No number is 0, which stands for acceptance.
pub trait Code {
    ghost code: { Self → ℕ };

    /// The number, from 1 up.
    fn code(&self) -> u8
        ensures { result ≡ code self.now };

    ghost refuses: { (refusal : Self) → 0 < code refusal };
}

/// Too few bytes of room are left for what was to be written (24).
#[derive(Clone, Copy, Debug, PartialEq, Eq)]
pub struct NoRoom;

impl Code for NoRoom {
    ghost code = { λ _. 24 };

    ghost refuses = { Prim.search rules };

    fn code(&self) -> u8 {
        24
    }
}

/// The code of an answer: 0 where it was accepted.
pub fn code_of<T, E: Code>(answer: &Result<T, E>) -> u8
    ensures { result ≡ answer_code E.code answer.now }
{
    match answer {
        Ok(_) => 0,
        Err(refusal) => refusal.code(),
    }
}
