//! What a run put into its room.
use bench::Ran;
use script::{output, rooms};

// The end of a run's line, ` KIT PUPIL`, a line `record` for each record, and the rest of the room behind them.
fn counted(out: &mut [u8], used: usize, kit: u32, pupil: u32, room: &[u8]) -> usize {
    let used = output::number(out, used, u64::from(kit));
    let used = output::number(out, used, u64::from(pupil));
    let used = output::end(out, used);
    let count = kit as usize + pupil as usize;
    let used = output::piece_lines(out, used, b"record", room, report::RECORD, count);
    rooms::rest_line(out, used, room, count * report::RECORD)
}

/// The same of a run that was carried out or refused: that has no records.
pub fn lines<E>(out: &mut [u8], used: usize, ran: &Result<Ran, E>, room: &[u8]) -> usize {
    match ran {
        Ok(ran) => counted(out, used, ran.kit, ran.pupil, room),
        Err(_) => counted(out, used, 0, 0, room),
    }
}
