//! The queue of one seat: the commands that wait, the oldest at the front, and how many the seat has queued so far.
ghost use Rattle.std.specs.Prelude.{◌≡◌, replicate, ◌==◌};
ghost use Rattle.std.specs.List.{list_all};
ghost use Rattle.bench.specs.Exports.{judge_code};
ghost use Rattle.seats.specs.Queues.{empty_command, empty_queue, passes_args, queue_holds};

use bench::{Command, Kind};

/// The most commands that wait for one seat.
pub const LONGEST: usize = 32;

/// The commands that wait, how many they are, and how many the seat has queued so far, modulo 2^32.
// The count stands beside the places, and the type rules no count out: a state that comes from outside is judged by `holds` (docs/PROMISES.md).
#[derive(Clone, Copy)]
pub struct Queue {
    pub commands: [Command; 32],
    pub count: u8,
    pub queued: u32,
}

// Does a decoded command pass 8 to 10?
fn passes(command: Command) -> bool
    ensures { result ≡ (judge_code command == 0) }
{
    bench::judge(command).is_ok()
}

// Do all of these pass?
fn all_pass(commands: &[Command]) -> bool
    ensures { result ≡ list_all passes_args commands.now }
{
    commands.iter().all(|&command| passes(command))
}

impl Queue {
    /// A queue in which nothing waits, of a seat that has queued nothing. What its places hold is never asked for.
    pub fn empty() -> Queue
        ensures { result ≡ empty_queue }
    {
        let command = Command {
            flag: false,
            kind: Kind::ImgPwr(0),
        };
        Queue {
            commands: [command; 32],
            count: 0,
            queued: 0,
        }
    }

    // Does a lent queue hold? Judged by value, each of the four is copied first.
    pub(crate) fn keeps(&self) -> bool
        ensures { result ≡ queue_holds self.now }
    {
        self.count as usize <= LONGEST && all_pass(&self.commands[..self.count as usize])
    }

    /// Do at most 32 commands wait, and does each pass 8 to 10? Rules: "Four seats, one bench".
    pub fn holds(self) -> bool
        ensures { result ≡ queue_holds self }
    {
        self.keeps()
    }
}
