//! The run of the kit's raw list and then of a list that the pupil typed. The whole text is judged before anything is carried out. Then each line is
//! carried out as the command that it says, and the command's record has the line's number.
ghost use Rattle.std.specs.Prelude.{◌≡◌};
ghost use Rattle.bench.specs.Typed.{of_text, of_run, begun_finding, ran_finding, typed_ran_of, typed_of, typed_room};
ghost use Rattle.text.specs.Findings.{finding};

use super::super::Bench;
use super::sources::Lines;
use super::{Ran, RunRefusal, run_judged};
use text::{Fault, Finding};
use wire::{Tell, Told};

/// Why a run of a typed list is refused. `BadLine` has the number of the first bad line and its fault. Rules: "Which call tries what".
#[derive(Clone, Copy, Debug, PartialEq, Eq)]
pub enum TypedRefusal {
    TooLong,
    BadLine(u32, Fault),
    RoomTooSmall,
    Unsound,
}

impl From<text::Refusal> for TypedRefusal {
    ghost from_gives = { λ refusal typed. typed ≡ of_text refusal };

    fn from(refusal: text::Refusal) -> TypedRefusal {
        match refusal {
            text::Refusal::TooLong => TypedRefusal::TooLong,
            text::Refusal::BadLine(number, fault) => TypedRefusal::BadLine(number, fault),
        }
    }
}

impl From<RunRefusal> for TypedRefusal {
    ghost from_gives = { λ refusal typed. typed ≡ of_run refusal };

    fn from(refusal: RunRefusal) -> TypedRefusal {
        match refusal {
            RunRefusal::ListTooLong => TypedRefusal::TooLong,
            RunRefusal::RoomTooSmall => TypedRefusal::RoomTooSmall,
            RunRefusal::Unsound => TypedRefusal::Unsound,
        }
    }
}

fn of_line(number: u32, told: Told) -> Finding
    ensures { result ≡ finding told number }
{
    Finding { told, number }
}

/// What is told of an answer, and its line: code 0 and line 0 where the run was carried out.
pub fn finding_of(answer: &Result<Ran, TypedRefusal>) -> Finding
    ensures { result ≡ ran_finding answer.now }
{
    match answer {
        Ok(_) => text::of_whole(0),
        Err(TypedRefusal::TooLong) => text::of_whole(20),
        Err(TypedRefusal::BadLine(number, fault)) => of_line(*number, fault.told()),
        Err(TypedRefusal::RoomTooSmall) => text::of_whole(21),
        Err(TypedRefusal::Unsound) => text::of_whole(27),
    }
}

impl Bench {
    /// The run of the kit's raw list and then of the pupil's text, with their records as after `run`; a record of the pupil's has the number of its
    /// line. Rules: "Typed lists".
    ///
    /// # Errors
    ///
    /// 20 for a raw list above 4,096 bytes or a text above 32,768, the first bad line, 20 for a text whose list is above 4,096 bytes, 21 for a room
    /// below 12,288 bytes, then 27. The room is then as it was.
    pub fn run_typed(self, kit: &[u8], text: &[u8], room: &mut [u8]) -> Result<Ran, TypedRefusal>
        ensures result_value { typed_ran_of self result ≡ typed_of self kit.now text.now room.old }
        ensures room_after { room.new ≡ typed_room self kit.now text.now room.old }
    {
        if walk::LONGEST < kit.len() {
            return Err(TypedRefusal::TooLong);
        }
        text::judge_text(text)?;
        let ran = run_judged(self, kit, Lines::new(text), room)?;
        Ok(ran)
    }
}
