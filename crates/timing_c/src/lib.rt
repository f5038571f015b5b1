//! The measured jobs for C: each is that of `timing`.
#![tactic(auto)]

/// Reads a command so many times, in turn each of the sixteen that lie sixteen bytes apart.
#[unsafe(no_mangle)]
pub extern "C" fn timing_read(bytes: &[u8], times: u32) -> u64 {
    timing::timing_read(bytes, times)
}

/// Writes a command so many times, in turn each of the sixteen that lie sixteen bytes apart in `bytes`, to the same place of the room.
#[unsafe(no_mangle)]
pub extern "C" fn timing_write(bytes: &[u8], room: &mut [u8], times: u32) -> u64 {
    timing::timing_write(bytes, room, times)
}

/// Reads a frame so many times, in turn each of the eight that lie one after another.
#[unsafe(no_mangle)]
pub extern "C" fn timing_frame_read(bytes: &[u8], times: u32) -> u64 {
    timing::timing_frame_read(bytes, times)
}

/// Writes a frame so many times, in turn each of the eight that lie one after another in `bytes`, to the same place of the room.
#[unsafe(no_mangle)]
pub extern "C" fn timing_frame_write(bytes: &[u8], room: &mut [u8], times: u32) -> u64 {
    timing::timing_frame_write(bytes, room, times)
}

/// Reads a housekeeping frame so many times, in turn each of the eight that begin 32 bytes apart; so many bytes of each.
#[unsafe(no_mangle)]
pub extern "C" fn timing_housekeeping_read(bytes: &[u8], each: u32, times: u32) -> u64 {
    timing::timing_housekeeping_read(bytes, each, times)
}

/// Writes a housekeeping frame so many times, in turn each of the eight that begin 32 bytes apart in `bytes`, to the same place of the room; each has
/// so many bytes of room.
#[unsafe(no_mangle)]
pub extern "C" fn timing_housekeeping_write(
    bytes: &[u8],
    room: &mut [u8],
    each: u32,
    times: u32,
) -> u64 {
    timing::timing_housekeeping_write(bytes, room, each, times)
}

/// Reads a valve's frame so many times, in turn each of the eight that begin 80 bytes apart; so many bytes of each.
#[unsafe(no_mangle)]
pub extern "C" fn timing_valve_read(bytes: &[u8], each: u32, times: u32) -> u64 {
    timing::timing_valve_read(bytes, each, times)
}

/// Writes a valve's frame so many times, in turn each of the eight that begin 80 bytes apart in `bytes`, to the same place of the room; each has so many
/// bytes of room.
#[unsafe(no_mangle)]
pub extern "C" fn timing_valve_write(bytes: &[u8], room: &mut [u8], each: u32, times: u32) -> u64 {
    timing::timing_valve_write(bytes, room, each, times)
}

/// Has a fresh valve carry out so many frames, in turn each of the eight that begin 80 bytes apart, so many bytes of each; the code and the status word
/// behind each.
#[unsafe(no_mangle)]
pub extern "C" fn timing_valve_carry_out(bytes: &[u8], each: u32, times: u32) -> u64 {
    timing::timing_valve_carry_out(bytes, each, times)
}

/// Runs these two lists so many times, each time on a fresh bench; then the last one's status and housekeeping.
#[unsafe(no_mangle)]
pub extern "C" fn timing_run(kit: &[u8], pupil: &[u8], room: &mut [u8], times: u32) -> u64 {
    timing::timing_run(kit, pupil, room, times)
}

/// A fresh bench runs this list; then, so many times over, that bench passes so many seconds.
#[unsafe(no_mangle)]
pub extern "C" fn timing_seconds(list: &[u8], room: &mut [u8], seconds: u32, times: u32) -> u64 {
    timing::timing_seconds(list, room, seconds, times)
}

/// Assembles a text so many times, to the same place of the room.
#[unsafe(no_mangle)]
pub extern "C" fn timing_assemble(typed: &[u8], room: &mut [u8], times: u32) -> u64 {
    timing::timing_assemble(typed, room, times)
}

/// Lists a raw list so many times, to the same place of the room.
#[unsafe(no_mangle)]
pub extern "C" fn timing_list(raw: &[u8], room: &mut [u8], times: u32) -> u64 {
    timing::timing_list(raw, room, times)
}

/// Builds the index of a list so many times, from the same offsets of an earlier one, to the same place of the room; then every offset in the room.
#[unsafe(no_mangle)]
pub extern "C" fn timing_index(list: &[u8], old: &[u16], room: &mut [u16], times: u32) -> u64 {
    timing::timing_index(list, old, room, times)
}

/// Looks a command up through these offsets so many times.
#[unsafe(no_mangle)]
pub extern "C" fn timing_look_up(list: &[u8], offsets: &[u16], number: u32, times: u32) -> u64 {
    timing::timing_look_up(list, offsets, number, times)
}

/// Shows a command so many times, by a walk from the start of its sender's list.
#[unsafe(no_mangle)]
pub extern "C" fn timing_shown<'a>(
    kit: &'a [u8],
    pupil: &'a [u8],
    sender: u8,
    number: u32,
    times: u32,
) -> u64 {
    timing::timing_shown(kit, pupil, sender, number, times)
}

/// Moves a raw list to a card so many times, to the same place of the room.
#[unsafe(no_mangle)]
pub extern "C" fn timing_to_card(list: &[u8], room: &mut [u8], times: u32) -> u64 {
    timing::timing_to_card(list, room, times)
}

/// Moves a stored list from a card so many times, to the same place of the room.
#[unsafe(no_mangle)]
pub extern "C" fn timing_from_card(stored: &[u8], room: &mut [u8], times: u32) -> u64 {
    timing::timing_from_card(stored, room, times)
}

/// Rescues a damaged list so many times, to the same place of the room and of the table.
#[unsafe(no_mangle)]
pub extern "C" fn timing_rescue(list: &[u8], room: &mut [u8], table: &mut [u8], times: u32) -> u64 {
    timing::timing_rescue(list, room, table, times)
}
