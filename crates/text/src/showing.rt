//! The line that a record's number names, as a part of the text.
ghost use Rattle.std.specs.Prelude.{◌≡◌};
ghost use Rattle.walk.specs.Shown.{Placed};
ghost use Rattle.text.specs.Shown.{line_shown, line_start};

use super::split::{LINE_FEED, run_of};

/// The longest text that is taken, in bytes.
pub const LONGEST: usize = 32768;

/// The line with this number, from 1, without its line feed; the empty part at the text's start where there is no such line, or
/// the text has more than `LONGEST` bytes. Rules: "Typed lists".
pub fn line_shown<'a>(text: &'a [u8], number: u32) -> &'a [u8]
    ensures result_value { result.now ≡ line_shown text.now number }
    ensures placed { Placed text.entry result (line_start text.now number) }
{
    if LONGEST < text.len() || number == 0 {
        return &text[..0];
    }
    let mut at: usize = 0;
    let mut passed: u32 = 0;
    // Stays a `while` and no `Lines::nth`: where the line lies in the text is promised too, and an iterator's clauses speak of a line's bytes alone. Each turn
    // passes a byte at least, so the text's length bounds the turns, whatever the number.
    while at < text.len() {
        let end = at + run_of(&text[at..], LINE_FEED);
        passed += 1;
        if passed == number {
            return &text[at..end];
        }
        at = end + 1;
    }
    &text[..0]
}
