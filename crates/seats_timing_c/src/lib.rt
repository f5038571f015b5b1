//! The measured jobs of the four seats for C: each is that of `seats_timing`.
#![tactic(auto)]

/// So many times over, the commands of all events are queued where those of the first list wait; then the last seats.
#[unsafe(no_mangle)]
pub extern "C" fn timing_queue(waiting: &[u8], events: &[u8], times: u32) -> u64 {
    seats_timing::timing_queue(waiting, events, times)
}

/// So many times over, so many turns are taken where the commands of these events wait; then the last seats.
#[unsafe(no_mangle)]
pub extern "C" fn timing_turn(waiting: &[u8], turns: u32, times: u32) -> u64 {
    seats_timing::timing_turn(waiting, turns, times)
}

/// Four seats on a fresh bench, and all these events one after another; the whole state behind each.
#[unsafe(no_mangle)]
pub extern "C" fn timing_seats(events: &[u8]) -> u64 {
    seats_timing::timing_seats(events)
}
