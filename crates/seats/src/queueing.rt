//! Queueing a command from bytes: what the seat and the bytes alone say, then whether there is room in the seat's queue.
ghost use Rattle.std.specs.Prelude.{◌≡◌, ◌<◌};
ghost use Rattle.seats.specs.Queues.{entered_in};
ghost use Rattle.seats.specs.Queueing.{refusal_told, front_of, front_at, queued_of, room_for, queue_at};
ghost use Rattle.seats.specs.declared.queueing.Refusal.TheVariants.{Misread};

use super::{LONGEST, Queue, SEATS, Seats};
use bench::{Command, Tell, Told};

/// Why a command is not queued: 27 for seats that are not sound, 51 for a seat above 3, a code of the wire (1 to 10), 53 where more bytes follow the
/// command, or 52 where 32 commands wait for the seat. Rules: "Four seats, one bench".
#[derive(Clone, Copy, Debug, PartialEq, Eq)]
pub enum Refusal {
    Unsound,
    NoSeat,
    Misread(bench::Refusal),
    BytesFollow,
    Full,
}

impl From<bench::Refusal> for Refusal {
    ghost from_gives = { λ misread refusal. refusal ≡ Misread misread };

    fn from(misread: bench::Refusal) -> Refusal {
        Refusal::Misread(misread)
    }
}

impl Tell for Refusal {
    ghost told = { refusal_told };

    fn told(&self) -> Told {
        match self {
            Refusal::Unsound => bench::plain(27),
            Refusal::NoSeat => bench::plain(51),
            Refusal::Misread(misread) => misread.told(),
            Refusal::BytesFollow => bench::plain(53),
            Refusal::Full => bench::plain(52),
        }
    }
}

// 51, 1 to 10, 53: on the seat and the bytes alone.
fn front_of(seat: u8, bytes: &[u8]) -> Result<Command, Refusal>
    ensures { front_of result ≡ front_at seat bytes.now }
{
    if SEATS <= seat {
        return Err(Refusal::NoSeat);
    }
    let command = bench::read_command(bytes)?;
    if bench::span(bytes) < bytes.len() {
        return Err(Refusal::BytesFollow);
    }
    Ok(command)
}

// One command more for a queue.
// Tried: queue and queues copied, changed and put back into a new state, in a function that answers by Result; slower (1,640 ns of a queueing for 850), so
// a command is entered in place.
fn enter(queue: &mut Queue, command: Command)
    requires { queue.old.count < 32 }
    ensures { queue.new ≡ entered_in queue.old command }
{
    queue.commands[queue.count as usize] = command;
    queue.count += 1;
    queue.queued = queue.queued.wrapping_add(1);
}

impl Seats {
    /// The seats behind which one command from bytes waits: it goes behind those of its seat. A refused one gets no number and changes nothing.
    ///
    /// # Errors
    ///
    /// 27, 51, 1 to 10, 53, 52. Rules: "Four seats, one bench".
    pub fn queue(self, seat: u8, bytes: &[u8]) -> Result<Seats, Refusal>
        ensures { queued_of self result ≡ queue_at self seat bytes.now }
    {
        if !self.sound() {
            return Err(Refusal::Unsound);
        }
        let command = front_of(seat, bytes)?;
        if LONGEST <= self.queues[seat as usize].count as usize {
            return Err(Refusal::Full);
        }
        let mut seats = self;
        enter(&mut seats.queues[seat as usize], command);
        Ok(seats)
    }
}
