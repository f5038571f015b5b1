//! A run: the kit's list and then the pupil's, raw or typed, with a record of each command in a lent room. The state is judged once a run.
ghost use Rattle.std.specs.Prelude.{◌*◌, ◌<◌, ◌≤◌, ◌≡◌, length};
ghost use Rattle.std.proofs.Common.{rules};
ghost use Rattle.words.specs.BigEndian.{written};
ghost use Rattle.report.specs.Record.{record_length};
ghost use Rattle.bench.specs.declared.lists.RunRefusal.TheVariants.{Unsound};
ghost use Rattle.bench.specs.Run.{begun_code, begun_some, ended_as, ran_of, run_of, run_rests, room_after};
ghost use Rattle.bench.specs.Steps.{bench_of, AtWork, Even, judged_run, judged_room};

mod sources;
mod typed;

use super::deciding::{decide_read, put_decided};
use super::{Bench, Unsound, Works, bench_of, take_effect};
use sources::{Raw, Source};
pub use typed::{TypedRefusal, finding_of};
use words::Code;

/// Why a run of two lists is refused. Rules: "Which call tries what".
#[derive(Clone, Copy, Debug, PartialEq, Eq)]
pub enum RunRefusal {
    ListTooLong,
    RoomTooSmall,
    Unsound,
}

impl From<Unsound> for RunRefusal {
    ghost from_gives = { λ _ refusal. refusal ≡ Unsound };

    fn from(_: Unsound) -> RunRefusal {
        RunRefusal::Unsound
    }
}

impl Code for RunRefusal {
    ghost code = { begun_code };

    ghost refuses = { begun_some };

    fn code(&self) -> u8 {
        match self {
            RunRefusal::ListTooLong => 20,
            RunRefusal::RoomTooSmall => 21,
            RunRefusal::Unsound => 27,
        }
    }
}

/// A run that was carried out: the bench afterwards, and the number of records for each sender.
#[derive(Clone, Copy)]
pub struct Ran {
    pub bench: Bench,
    pub kit: u32,
    pub pupil: u32,
}

// One list carried out: what is at work afterwards, and how many commands the list had.
#[derive(Drop)]
struct Part {
    works: Works,
    count: u32,
}

// Carries a list out on a lent pool and puts the records of its commands, one after another, into the front of a room. Each command is judged by the
// tally of the macros; the pool stays where it is, and an accepted append is put into it.
fn run_list<S: Source + Drop>(
    works: Works,
    pool: &mut [u32; 576],
    list: S,
    sender: u8,
    room: &mut [u8],
) -> Part
    requires even { Even (S.numbers list) (S.commands list) }
    requires fits { length (S.commands list) * record_length ≤ length room.old }
    requires at_work { AtWork works pool.old }
    ensures pool_after { bench_of result.works pool.new ≡ (run_rests (bench_of works pool.old) sender (S.numbers list) (S.commands list)).bench }
    ensures count_value { (result.count ≡ length (S.commands list)) × AtWork result.works pool.new }
    ensures room_after { room.new ≡ written (run_rests (bench_of works pool.old) sender (S.numbers list) (S.commands list)).records room.old }
{
    let mut works = works;
    let mut list = list;
    let mut count: u32 = 0;
    // Not `for`, which takes an Iterator: a source's own `next` promises what is left behind each command, and the invariant is about that.
    while let Some((number, read)) = list.next() {
        let decision = decide_read(works.camera.power, works.tally, read);
        let end = count as usize * report::RECORD;
        count += 1;
        put_decided(&mut room[end..], sender, decision, number);
        // Tried: `if let Ok(command)`; slower (a run of 512 macro commands 45 us of 42), for only with `continue` the compiler works out once, ahead of the
        // commands that leave it as it is, what the tally says.
        match decision {
            Err(_) => continue,
            Ok(command) => {
                works = take_effect(works, pool, command);
            }
        }
    }
    Part { works, count }
}

// The pupil's list, with which a run ends: the numbers of the latest run are what its records say.
fn run_pupil<S: Source + Drop>(
    works: Works,
    pool: &mut [u32; 576],
    list: S,
    room: &mut [u8],
) -> Part
    requires even { Even (S.numbers list) (S.commands list) }
    requires fits { length (S.commands list) * record_length ≤ length room.old }
    requires at_work { AtWork works pool.old }
    ensures pool_after { bench_of result.works pool.new
        ≡ ended_as (run_rests (bench_of works pool.old) 2 (S.numbers list) (S.commands list)) (length (S.commands list)) }
    ensures count_value { result.count ≡ length (S.commands list) }
    ensures room_after { room.new ≡ written (run_rests (bench_of works pool.old) 2 (S.numbers list) (S.commands list)).records room.old }
{
    let part = run_list(works, pool, list, walk::PUPIL, room);
    let latest = report::latest_of(room, part.count);
    Part {
        works: Works {
            latest,
            ..part.works
        },
        count: part.count,
    }
}

// A run whose lists were judged: 21, then 27, then the kit's list and the pupil's.
fn run_judged<S: Source + Drop>(
    bench: Bench,
    kit: &[u8],
    pupil: S,
    room: &mut [u8],
) -> Result<Ran, RunRefusal>
    requires short { length kit.now ≤ 4096 }
    requires even { Even (S.numbers pupil) (S.commands pupil) }
    ensures result_value { ran_of bench result ≡ judged_run bench kit.now (S.numbers pupil) (S.commands pupil) room.old }
    ensures room_after { room.new ≡ judged_room bench kit.now (S.numbers pupil) (S.commands pupil) room.old }
{
    if room.len() < report::ROOM {
        return Err(RunRefusal::RoomTooSmall);
    }
    let tally = bench.tally()?;
    let works = Works {
        tally,
        ..bench.works()
    };
    let mut pool = bench.store.pool;
    let first = run_list(works, &mut pool, Raw::new(kit), walk::KIT, room);
    let end = first.count as usize * report::RECORD;
    let second = run_pupil(first.works, &mut pool, pupil, &mut room[end..]);
    Ok(Ran {
        bench: bench_of(second.works, pool),
        kit: first.count,
        pupil: second.count,
    })
}

impl Bench {
    /// The run of the kit's list and then the pupil's, both raw, with their records, one after another, at the front of a room; the bytes behind them
    /// stay. Rules: "Two lists, one report".
    ///
    /// # Errors
    ///
    /// 20 for a list above 4,096 bytes, 21 for a room below 12,288 bytes, then 27. The room is then as it was.
    pub fn run(self, kit: &[u8], pupil: &[u8], room: &mut [u8]) -> Result<Ran, RunRefusal>
        ensures result_value { ran_of self result ≡ run_of self kit.now pupil.now room.old }
        ensures room_after { room.new ≡ room_after self kit.now pupil.now room.old }
    {
        if walk::LONGEST < kit.len() || walk::LONGEST < pupil.len() {
            return Err(RunRefusal::ListTooLong);
        }
        run_judged(self, kit, Raw::new(pupil), room)
    }
}
