//! The valve: safe, armed or fired. A frame's bytes are the one thing that changes it (40 to 46), and its status word says what it is.
ghost use Rattle.std.specs.Prelude.{◌≡◌};
ghost use Rattle.words.specs.Codes.{first_of};
ghost use Rattle.valve.specs.State.{fresh_valve, is_armed, status_of, act_checks, left_by, outcome_of, outcome_by, carry_out};
ghost use Rattle.valve.specs.declared.Act.{Act};

use super::{Act, Refusal, read_frame};

/// The valve. Arming makes a safe one armed, firing an armed one fired, and nothing leads back. Rules: "The gas valve".
#[derive(Clone, Copy, Debug, PartialEq, Eq)]
pub enum Valve {
    Safe,
    Armed,
    Fired,
}

// The code that fires.
const FIRING: u16 = 0x1810;

// The status word of an armed valve, bit 14, and of a fired one, bits 14 and 15.
const ARMED: u16 = 0x4000;

const FIRED: u16 = 0xc000;

impl Valve {
    /// A valve to which nothing was sent yet: a safe one.
    pub fn fresh() -> Valve
        ensures { result ≡ fresh_valve }
    {
        Valve::Safe
    }

    /// The status word: bit 14 is set of an armed valve, bits 14 and 15 of a fired one, and no other bit ever.
    pub fn status(self) -> u16
        ensures { result ≡ status_of self }
    {
        match self {
            Valve::Safe => 0,
            Valve::Armed => ARMED,
            Valve::Fired => FIRED,
        }
    }

    // May it be fired? A fired one counts as armed.
    fn is_armed(self) -> bool
        ensures { result ≡ is_armed self }
    {
        matches!(self, Valve::Armed | Valve::Fired)
    }

    // What arming makes of it.
    fn armed(self) -> Valve
        ensures { result ≡ left_by self Act.Arm }
    {
        match self {
            Valve::Safe | Valve::Armed => Valve::Armed,
            Valve::Fired => Valve::Fired,
        }
    }

    // What an act leaves: 45, then 46.
    fn obey(self, act: Act) -> Result<Valve, Refusal>
        ensures { outcome_of self result ≡ outcome_by (first_of (act_checks self act)) self act }
    {
        match act {
            Act::Arm => Ok(self.armed()),
            Act::Fire(_) if !self.is_armed() => Err(Refusal::NotArmed),
            Act::Fire(code) if code != FIRING => Err(Refusal::WrongCode),
            Act::Fire(_) => Ok(Valve::Fired),
        }
    }

    /// The valve after the frame that these bytes are.
    ///
    /// # Errors
    ///
    /// 40 to 44 by the bytes, then 45 and 46 by the valve, which stays as it was. Rules: "The gas valve".
    pub fn carry_out(self, s: &[u8]) -> Result<Valve, Refusal>
        ensures { outcome_of self result ≡ carry_out self s.now }
    {
        let frame = read_frame(s)?;
        self.obey(frame.act)
    }
}
