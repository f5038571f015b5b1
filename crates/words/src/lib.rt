//! Big-endian numbers of 16 and 32 bits in byte slices: total readers, and writers into the front of a lent part; and text, from any place of it on.
//! A reader takes what lies past the end for 0. A writer that has too little room leaves it untouched and says so. Beside them stands what refusals have in
//! common, their codes. Rules: "Codes, in the order they are tried".
#![tactic(auto)]

ghost use Rattle.std.specs.Prelude.{is_ok, ◌+◌, ◌*◌, ◌≡◌};
ghost use Rattle.words.specs.BigEndian.{byte_at, half_at, word_at, word_bytes, bytes_of, has_room, written};

mod codes;
mod putting;
mod writer;

pub use codes::{Code, NoRoom, code_of};
pub use putting::{places, put_at, put_decimal};
pub use writer::Writer;

/// The bytes of a 32-bit number.
pub const WORD: usize = 4;

/// The byte at a place, from 0; 0 past the end.
pub fn byte_at(s: &[u8], at: usize) -> u8
    ensures { result ≡ byte_at s.now at }
{
    s.get(at).copied().unwrap_or(0)
}

/// The 16-bit number that begins at a place; its bytes past the end count as 0.
pub fn half_at(s: &[u8], at: usize) -> u16
    ensures { result ≡ half_at s.now at }
{
    match s.get(at..) {
        Some([high, low, ..]) => u16::from_be_bytes([*high, *low]),
        Some([high]) => u16::from_be_bytes([*high, 0]),
        _ => 0,
    }
}

// The 32-bit number that begins at a place and that the end may cut off, from two halves: put together as in `word_at`, it would share that one's last steps,
// and each word of a long command's sum would jump there and back.
fn cut_word(s: &[u8], at: usize) -> u32
    ensures { result ≡ word_at s.now at }
{
    if at < s.len() {
        u32::from(half_at(s, at)) * 65536 + u32::from(half_at(s, at + 2))
    } else {
        0
    }
}

/// The 32-bit number that begins at a place; its bytes past the end count as 0. One that lies whole in the slice, as nearly all do, takes one test.
pub fn word_at(s: &[u8], at: usize) -> u32
    ensures { result ≡ word_at s.now at }
{
    match s.len().checked_sub(WORD) {
        Some(last) if at <= last => u32::from_be_bytes([s[at], s[at + 1], s[at + 2], s[at + 3]]),
        _ => cut_word(s, at),
    }
}

/// The four bytes of a 32-bit number.
pub fn word_bytes(value: u32) -> [u8; 4]
    ensures { result ≡ word_bytes value }
{
    value.to_be_bytes()
}

/// Writes bytes at the front of a room; the rest of it stays as it was.
///
/// # Errors
///
/// `NoRoom` (24) where the room has fewer bytes; it is then as it was.
pub fn put_bytes(room: &mut [u8], bytes: &[u8]) -> Result<(), NoRoom>
    ensures value { is_ok result ≡ has_room bytes.now room.old }
    ensures room_after { room.new ≡ written bytes.now room.old }
{
    if room.len() < bytes.len() {
        return Err(NoRoom);
    }
    room[..bytes.len()].copy_from_slice(bytes);
    Ok(())
}

/// Writes a 32-bit number at the front of a room; the rest of it stays as it was.
///
/// # Errors
///
/// `NoRoom` (24) where the room has fewer than `WORD` bytes; it is then as it was.
pub fn put_word(room: &mut [u8], value: u32) -> Result<(), NoRoom>
    ensures value { is_ok result ≡ has_room (word_bytes value) room.old }
    ensures room_after { room.new ≡ written (word_bytes value) room.old }
{
    put_bytes(room, &value.to_be_bytes())
}

/// Writes several 32-bit numbers, one after another, at the front of a room; the rest of it stays as it was.
///
/// # Errors
///
/// `NoRoom` (24) where the room has fewer than `WORD` bytes for each; it is then as it was.
pub fn put_words(room: &mut [u8], values: &[u32]) -> Result<(), NoRoom>
    ensures value { is_ok result ≡ has_room (bytes_of values.now) room.old }
    ensures room_after { room.new ≡ written (bytes_of values.now) room.old }
{
    if room.len() / WORD < values.len() {
        return Err(NoRoom);
    }
    for (i, &value) in values.iter().enumerate() {
        put_word(&mut room[i * WORD..], value)?;
    }
    Ok(())
}
