//! Four seats share one bench. Each has a queue of its own; a turn carries out the oldest command of the next waiting seat. The state goes in by value
//! and comes back, every call judges it (27), and on a refusal it is the one that the caller handed in. This crate stands above `bench` and relies on
//! its promises alone.
#![tactic(auto)]

ghost use Rattle.std.specs.Prelude.{◌≡◌, IfOk};
ghost use Rattle.std.specs.List.{list_all};
ghost use Rattle.bench.specs.Exports.{group_of};
ghost use Rattle.bench.specs.Second.{codes_shown};
ghost use Rattle.bench.specs.Status.{told_status};
ghost use Rattle.seats.specs.Queues.{queue_holds};
ghost use Rattle.seats.specs.State.{fresh_seats, queues_hold, rules_hold, seats_sound};
ghost use Rattle.seats.specs.Turn.{passed_of, second_at, status_at};

mod queueing;
mod queues;
mod turns;

use bench::{Bench, Frame, Group};
pub use bench::{Code, Tell, Told, Unsound, code_of, told_of};
pub use queueing::Refusal;
pub use queues::{LONGEST, Queue};
pub use turns::Turned;

/// The number of seats.
pub const SEATS: u8 = 4;

/// The state: the shared bench, the four queues, and the seat that was served last.
#[derive(Clone, Copy)]
pub struct Seats {
    pub bench: Bench,
    pub queues: [Queue; 4],
    pub last: u8,
}

/// A second passed: the seats afterwards, and what the bench's own second hands over, with the code of each entry.
#[derive(Clone, Copy)]
pub struct Passed {
    pub seats: Seats,
    pub codes: [u8; 64],
    pub group: Group,
}

// Do all of these queues hold?
fn all_hold(queues: &[Queue]) -> bool
    ensures { result ≡ list_all queue_holds queues.now }
{
    queues.iter().all(|queue| queue.keeps())
}

// Do all four queues hold?
fn queues_hold(queues: &[Queue; 4]) -> bool
    ensures { result ≡ queues_hold queues.now }
{
    all_hold(queues)
}

impl Seats {
    /// A fresh bench and four empty queues; seat 0 is the first that is looked at. Rules: "Four seats, one bench".
    pub fn fresh() -> Seats
        ensures { result ≡ fresh_seats }
    {
        Seats {
            bench: Bench::fresh(),
            queues: [Queue::empty(); 4],
            last: SEATS - 1,
        }
    }

    // The rules outside the bench: those of the last seat and of the queues.
    fn obeys(&self) -> bool
        ensures { result ≡ rules_hold self.now }
    {
        self.last < SEATS && queues_hold(&self.queues)
    }

    // Are lent seats sound?
    fn sound(&self) -> bool
        ensures { result ≡ seats_sound self.now }
    {
        self.obeys() && self.bench.is_sound()
    }

    /// Is this state sound: do the last seat, the queues and the bench obey their rules? Rules: "Four seats, one bench".
    pub fn is_sound(self) -> bool
        ensures { result ≡ seats_sound self }
    {
        self.sound()
    }

    /// A second of the shared bench, as the bench has it. The queues stay.
    ///
    /// # Errors
    ///
    /// 27 where the seats are not sound.
    // The bench judges itself.
    pub fn second(self) -> Result<Passed, Unsound>
        ensures result_value { passed_of self result ≡ second_at self }
        ensures group_value { IfOk result (λ passed. passed.group ≡ group_of (second_at self).handed) }
        ensures codes_value { IfOk result (λ passed. passed.codes ≡ codes_shown (second_at self).codes) }
    {
        if !self.obeys() {
            return Err(Unsound);
        }
        let bench::Passed {
            bench,
            codes,
            group,
        } = self.bench.second()?;
        Ok(Passed {
            seats: Seats { bench, ..self },
            codes,
            group,
        })
    }

    /// The status frame of the shared bench, as the bench has it.
    ///
    /// # Errors
    ///
    /// 27 where the seats are not sound.
    pub fn status(self) -> Result<Frame, Unsound>
        ensures { told_status result ≡ status_at self }
    {
        if !self.obeys() {
            return Err(Unsound);
        }
        self.bench.status()
    }
}
