//! A turn: the oldest command of the next waiting seat is carried out on the shared bench and leaves its queue, and a record tells of it.
ghost use Rattle.std.specs.Prelude.{◌≡◌, ◌<◌, true, unwrap_or, IfSome, if◌then◌else◌};
ghost use Rattle.bench.specs.Exports.{record_bytes};
ghost use Rattle.bench.specs.Status.{bench_sound};
ghost use Rattle.seats.specs.Queues.{served_in, first_number};
ghost use Rattle.seats.specs.State.{waits, next_after};
ghost use Rattle.seats.specs.Turn.{turned_of, served_of, served_at, stays, turn_at};

use super::{Queue, SEATS, Seats};
use bench::Unsound;

// The code of a state that is not sound. A turn asks for its command's code anyway, for the record, so it tells by this what the bench has judged.
const UNSOUND: u8 = 27;

/// A turn in which a command was carried out: the seats afterwards, and the 12 bytes of the command's record.
#[derive(Clone, Copy)]
pub struct Turned {
    pub seats: Seats,
    pub record: [u8; 12],
}

// The record of a turn. A queued command passed 1 to 10, so it has neither parameter nor value.
fn record_of(seat: u8, code: u8, number: u32) -> [u8; 12]
    ensures { result ≡ record_bytes seat code 0 number 0 }
{
    let mut record: [u8; 12] = [0; 12];
    let _ = bench::put_record(&mut record, seat, code, 0, number, 0);
    record
}

// The oldest command leaves a queue: those behind it move up.
fn leave(queue: &mut Queue)
    requires { 0 < queue.old.count }
    ensures { queue.new ≡ served_in queue.old }
{
    queue.commands.copy_within(1.., 0);
    queue.count -= 1;
}

// The number of the oldest command that waits.
fn first_number(queue: &Queue) -> u32
    ensures { result ≡ first_number queue.now }
{
    queue
        .queued
        .wrapping_sub(u32::from(queue.count))
        .wrapping_add(1)
}

// The next waiting seat after the last served, if any.
fn next_waiting(queues: &[Queue; 4], last: u8) -> Option<u8>
    requires { last < 4 }
    ensures seat_value { unwrap_or result 4 ≡ next_after queues.now last }
    ensures one_of_four { IfSome result (λ seat. seat < 4) }
{
    for step in 0..SEATS {
        let seat = (last + 1 + step) % SEATS;
        if 0 < queues[seat as usize].count {
            return Some(seat);
        }
    }
    None
}

impl Seats {
    // The oldest command of a waiting seat is carried out and leaves its queue, and its record is handed back: 27 where the bench is not sound, by its
    // own judgement.
    // Tried: the next state handed back; slower (2,760 ns of a turn for 1,420, and 1,960 where the copy that is changed stands behind a return, as it is
    // filled with zeros before), so a turn changes one copy in place, which it makes first.
    fn serve(&mut self, seat: u8) -> Result<[u8; 12], Unsound>
        requires { (seat < 4) × (waits self.old.queues seat ≡ true) }
        ensures { served_of self.old self.new result ≡ (if bench_sound self.old.bench then served_at self.old seat else stays 27 self.old) }
    {
        let carried = self.bench.carry_out(self.queues[seat as usize].commands[0]);
        let code = bench::told_of(&carried).code;
        if code == UNSOUND {
            return Err(Unsound);
        }
        let record = record_of(seat, code, first_number(&self.queues[seat as usize]));
        leave(&mut self.queues[seat as usize]);
        self.last = seat;
        if let Ok(bench) = carried {
            self.bench = bench;
        }
        Ok(record)
    }

    /// A turn: the oldest command of the next waiting seat after the last served is carried out and leaves its queue, whatever its code. Where nobody
    /// waits nothing is done, and there is no record.
    ///
    /// # Errors
    ///
    /// 27 where the seats are not sound. Rules: "Four seats, one bench".
    // The bench is judged once.
    pub fn turn(self) -> Result<Option<Turned>, Unsound>
        ensures { turned_of self result ≡ turn_at self }
    {
        let mut seats = self;
        if !self.obeys() {
            return Err(Unsound);
        }
        match next_waiting(&self.queues, self.last) {
            Some(seat) => {
                let record = seats.serve(seat)?;
                Ok(Some(Turned { seats, record }))
            }
            None if self.bench.is_sound() => Ok(None),
            None => Err(Unsound),
        }
    }
}
