//! Text in byte slices: how many digits a number has, and writers that put bytes or a number in decimal at a place of a room and say which place comes
//! next. A writer that has too little room leaves it untouched, and the place that it was given comes next.
ghost use Rattle.std.specs.Prelude.{◌+◌, ◌-◌, ◌%◌, ◌≤◌, ◌≡◌, length};
ghost use Rattle.std.proofs.lemmas.List.Edits.{sets};
ghost use Rattle.words.specs.Text.{decimal, stored_at, place_after};

use super::put_bytes;

// The base of decimal numbers, and the byte of the digit 0.
const TEN: u32 = 10;

const ZERO: u8 = b'0';

/// How many digits a number has in decimal, from 1 to 10.
pub fn places(value: u32) -> usize
    ensures { result ≡ length (decimal value) }
{
    value.checked_ilog10().unwrap_or(0) as usize + 1
}

// The byte of a number's last digit.
fn last_digit(value: u32) -> u8
    ensures { result ≡ 48 + value % 10 }
{
    ZERO + (value % TEN) as u8
}

// Puts a number so that it ends before a place, the last digit first. The loop counts no index: it takes a digit off the number, until one is left.
fn put_digits(room: &mut [u8], end: usize, value: u32)
    requires value_len_bound { length (decimal value) ≤ end }
    requires end_in_bounds { end ≤ length room.old }
    ensures { room.new ≡ sets room.old (end - length (decimal value)) (decimal value) }
{
    let mut behind = end;
    let mut left = value;
    while TEN <= left {
        behind -= 1;
        room[behind] = last_digit(left);
        left /= TEN;
    }
    room[behind - 1] = last_digit(left);
}

/// Writes bytes into a room, from a place on, and says which place comes next.
pub fn put_at(room: &mut [u8], at: usize, bytes: &[u8]) -> usize
    ensures value { result ≡ place_after bytes.now at room.old }
    ensures room_after { room.new ≡ stored_at bytes.now at room.old }
{
    if room.len() < at || put_bytes(&mut room[at..], bytes).is_err() {
        return at;
    }
    at + bytes.len()
}

/// Writes a number in decimal into a room, from a place on, and says which place comes next.
pub fn put_decimal(room: &mut [u8], at: usize, value: u32) -> usize
    ensures value { result ≡ place_after (decimal value) at room.old }
    ensures room_after { room.new ≡ stored_at (decimal value) at room.old }
{
    let digits = places(value);
    if room.len() < at || room.len() - at < digits {
        return at;
    }
    put_digits(room, at + digits, value);
    at + digits
}
