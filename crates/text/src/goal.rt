//! Goals: from text to quarters and the bits of the single, and back. Rules: "Goals", "Typed lists".
ghost use Rattle.std.specs.Prelude.{◌≤◌, ◌≡◌};
ghost use Rattle.text.specs.Goal.{goal_bits, quarters_in};
ghost use Rattle.text.specs.Line.{goal_of};
ghost use Rattle.text.specs.Steps.{guess_of};

use super::number::quarters_of;

// The bits of the largest goal, and of a quarter, the smallest that text can say but 0.
const LAST_GOAL: u32 = 0x447f_ffff;

const QUARTER: u32 = 0x3e80_0000;

// The weight of a single's exponent field, which its leading digit has too; and the field of a single whose digits are worth a quarter each.
const FIELD: u32 = 0x0080_0000;

const QUARTERS_FIELD: u32 = 148;

// The bits of the single that is so many quarters.
fn goal_bits(quarters: u32) -> u32
    requires { quarters ≤ 16777216 }
    ensures { result ≡ goal_bits quarters }
{
    let whole = quarters as f32;
    let four: f32 = 4.0;
    f32::to_bits(whole / four)
}

/// A goal, as the bits of its single.
pub fn goal_of(part: &[u8]) -> Option<u32>
    ensures { result ≡ goal_of part.now }
{
    let quarters = quarters_of(part)?;
    Some(goal_bits(quarters))
}

// The whole quarters in the single with these bits.
fn guess_of(bits: u32) -> u32
    requires { bits ≤ 0x447fffff }
    ensures { result ≡ guess_of bits }
{
    if bits < QUARTER {
        return 0;
    }
    (bits % FIELD + FIELD) >> (QUARTERS_FIELD - bits / FIELD)
}

/// The quarters that have these bits.
pub fn quarters_in(bits: u32) -> Option<u32>
    ensures { result ≡ quarters_in bits }
{
    if LAST_GOAL < bits {
        return None;
    }
    let guess = guess_of(bits);
    if goal_bits(guess) != bits {
        return None;
    }
    Some(guess)
}
