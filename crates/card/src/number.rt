//! One number read: groups of seven bits, lowest first, the high bit set on all but the last, never a group more than needed. Rules: "Lists on a memory
//! card".
ghost use Rattle.std.specs.Prelude.{◌≡◌};
ghost use Rattle.card.specs.Number.{number_at};
ghost use Rattle.card.specs.Steps.{got_of, longer_as, closed_as};

use super::answers::Fault;

// The high bit of a byte, which says that another group follows; and how much more each group counts than the one before it.
const MORE: u64 = 128;

// How many groups stand before the last that a number of 32 bits may have.
const MOST_BEFORE: usize = 4;

const LARGEST: u64 = 0xffff_ffff;

// A number of more groups than it may have, whose next one stands at a place: 35, or 34 where it does not end. (A range and no
// part of the bytes, here and below: the place may lie past the end.)
fn longer(s: &[u8], at: usize) -> Result<(u32, usize), Fault>
    ensures { got_of result ≡ longer_as s.now at }
{
    for i in at..s.len() {
        let group = s[i] as u64;
        if group < MORE {
            return Err(Fault::Overlong);
        }
    }
    Err(Fault::Ended)
}

// A number that ends before a place: what its groups say, the last of them, and how many stand before that.
fn closed(value: u64, last: u64, before: usize, end: usize) -> Result<(u32, usize), Fault>
    ensures { got_of result ≡ closed_as value last before end }
{
    if (last == 0 && 0 < before) || LARGEST < value {
        return Err(Fault::Overlong);
    }
    Ok((value as u32, end))
}

// The number that begins at a place, and the place behind it. Each of its bytes is looked at once.
pub fn number_at(s: &[u8], at: usize) -> Result<(u32, usize), Fault>
    ensures { got_of result ≡ number_at s.now at }
{
    let mut value: u64 = 0;
    let mut scale: u64 = 1;
    for i in at..s.len() {
        let group = s[i] as u64;
        if group < MORE {
            return closed(value + group * scale, group, i - at, i + 1);
        }
        if MOST_BEFORE <= i - at {
            return longer(s, i + 1);
        }
        value += (group - MORE) * scale;
        scale *= MORE;
    }
    Err(Fault::Ended)
}
