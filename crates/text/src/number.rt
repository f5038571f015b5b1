//! Numbers as digits: a whole number, and a goal in quarters. Rules: "Typed lists".
ghost use Rattle.std.specs.Prelude.{◌≡◌};
ghost use Rattle.text.specs.Number.{whole_of, fraction_of, quarters_of};
ghost use Rattle.text.specs.Steps.{Counted};

use super::same::same;

// The digits at the front of a text: what they say, and how many they are.
#[derive(Clone, Copy)]
struct Digits {
    value: u32,
    count: usize,
}

const MOST_DIGITS: usize = 5;

const TEN: u32 = 10;

// Quarters in a whole.
const WHOLE: u32 = 4;

fn digits_of(part: &[u8]) -> Digits
    ensures { Counted part.now result }
{
    let mut value = 0;
    for (count, &b) in part.iter().enumerate() {
        if count == MOST_DIGITS || !b.is_ascii_digit() {
            return Digits { value, count };
        }
        value = value * TEN + (b - b'0') as u32;
    }
    Digits {
        value,
        count: part.len(),
    }
}

/// A whole number: one to five digits and nothing else.
pub fn whole_of(part: &[u8]) -> Option<u32>
    ensures { result ≡ whole_of part.now }
{
    let digits = digits_of(part);
    if digits.count == 0 || digits.count != part.len() {
        return None;
    }
    Some(digits.value)
}

// The quarters that the end of a goal says. (No `match` on byte strings: its arms tell a proof the length alone.)
fn fraction_of(part: &[u8]) -> Option<u32>
    ensures { result ≡ fraction_of part.now }
{
    if part.len() == 0 {
        return Some(0);
    }
    if same(part, b".25") {
        return Some(1);
    }
    if same(part, b".5") {
        return Some(2);
    }
    if same(part, b".75") {
        return Some(3);
    }
    None
}

/// A goal, in quarters: a whole number, alone or ending in .25, .5 or .75.
pub fn quarters_of(part: &[u8]) -> Option<u32>
    ensures { result ≡ quarters_of part.now }
{
    let digits = digits_of(part);
    if digits.count == 0 {
        return None;
    }
    let quarters = fraction_of(&part[digits.count..])?;
    Some(digits.value * WHOLE + quarters)
}
