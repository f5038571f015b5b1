//! The small arrays of the store, a place to each macro. Nothing is written for a number that no macro has.
ghost use Rattle.std.specs.Prelude.{◌≡◌, set};
ghost use Rattle.store.specs.Words.{bit};
ghost use Rattle.store.specs.Pool.{marks_of};

/// Puts another value in the place of macro m.
// By a test of the place: `get_mut` was tried, and not proved.
pub(crate) fn put<T: Copy>(values: &mut [T], m: u8, value: T)
    ensures { values.new ≡ set values.old m value }
{
    let at = m as usize;
    if at < values.len() {
        values[at] = value;
    }
}

/// A mark as a bit, 1 for a macro that is closed.
fn bit_of(on: bool) -> u8
    ensures { result ≡ bit on }
{
    u8::from(on)
}

/// The marks as a byte, bit m for macro m.
pub(crate) fn byte_of(closed: [bool; 8]) -> u8
    ensures { result ≡ marks_of closed }
{
    let low = bit_of(closed[0])
        + bit_of(closed[1]) * 2
        + bit_of(closed[2]) * 4
        + bit_of(closed[3]) * 8;
    let high = bit_of(closed[4]) * 16
        + bit_of(closed[5]) * 32
        + bit_of(closed[6]) * 64
        + bit_of(closed[7]) * 128;
    low + high
}
