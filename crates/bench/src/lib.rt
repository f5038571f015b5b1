//! The bench: camera and macro store as one state that goes in by value and comes back. Every call judges the state that it is handed (27).
//! On a refusal the bench is the one that the caller handed in. What a crate above the bench has to name from below it, the bench hands on: commands
//! as they are read and judged, what is told of them, records, groups (`pub use`; for the meanings specs/Exports, for the laws proofs/Exports).
#![tactic(auto)]

ghost use Rattle.std.specs.Prelude.{◌≡◌, [], IfOk, is_ok};
ghost use Rattle.camera.specs.Camera.{camera_second};
ghost use Rattle.store.specs.Effects.{group_of, kinds_in};
ghost use Rattle.store.specs.TallySteps.{pool_after, tally_of};
ghost use Rattle.bench.specs.declared.Rejection.TheVariants.{Unsound, Misread, Denied};
ghost use Rattle.bench.specs.Status.{fresh_bench, pace_of, status_of, rules_hold, bench_sound, told_status, status_at, told_free, free_at};
ghost use Rattle.bench.specs.Status.{told_housekeeping, housekeeping_at};
ghost use Rattle.bench.specs.Carry.{verdict_of, outcome_of, camera_after, carry_out, carry_out_bytes};
ghost use Rattle.bench.specs.Second.{passed_of, codes_shown, second_at};
ghost use Rattle.bench.specs.Steps.{works_of, works_after, bench_of, effect_by, executed_with};

mod deciding;
mod lists;

use camera::{Camera, Series};
use deciding::{decide, decide_bytes};
pub use frame::Frame;
use frame::Pace;
use housekeeping::Housekeeping;
pub use lists::{Ran, RunRefusal, TypedRefusal, finding_of};
use report::Latest;
pub use report::put_record;
pub use store::{Denial, Group, Unsound};
use store::{Store, Tally};
pub use wire::{
    Command, Kind, Refusal, Stray, Tell, Told, judge, plain, read_command, span, told_of,
};
pub use words::{Code, code_of};

// The code of a picture that is asked for with the power off: a name of the number that `told` says and a second writes beside its group.
const DARK: u8 = 26;

/// The state: the camera, the macro store, and the numbers of the latest run.
#[derive(Clone, Copy)]
pub struct Bench {
    pub camera: Camera,
    pub store: Store,
    pub latest: Latest,
}

/// Why a command is refused: 27 for a bench that is not sound, then a code of the wire (1 to 10), 26 in the dark, or one of the macro store (11 to 19
/// and 25). Rules: "Which call tries what".
#[derive(Clone, Copy, Debug, PartialEq, Eq)]
pub enum Rejection {
    Unsound,
    Misread(Refusal),
    Dark,
    Denied(Denial),
}

impl From<Unsound> for Rejection {
    ghost from_gives = { λ _ rejection. rejection ≡ Unsound };

    fn from(_: Unsound) -> Rejection {
        Rejection::Unsound
    }
}

impl From<Refusal> for Rejection {
    ghost from_gives = { λ refusal rejection. rejection ≡ Misread refusal };

    fn from(misread: Refusal) -> Rejection {
        Rejection::Misread(misread)
    }
}

impl From<Denial> for Rejection {
    ghost from_gives = { λ denial rejection. rejection ≡ Denied denial };

    fn from(denial: Denial) -> Rejection {
        Rejection::Denied(denial)
    }
}

impl Tell for Rejection {
    ghost told = { verdict_of };

    fn told(&self) -> Told {
        match self {
            Rejection::Unsound => wire::plain(27),
            Rejection::Misread(refusal) => refusal.told(),
            Rejection::Dark => wire::plain(DARK),
            Rejection::Denied(denial) => wire::plain(denial.code()),
        }
    }
}

/// A second passed: the bench afterwards, the code of each entry that was handed over (26 for one that had no effect, 0 for every other, and zeros
/// behind them), and the group of these entries. (The codes stand before the group, for behind it the compiler copies the pool once more.)
#[derive(Clone, Copy)]
pub struct Passed {
    pub bench: Bench,
    pub codes: [u8; 64],
    pub group: Group,
}

// A bench at work without the pool of its macros' entries, which is lent beside it: the camera, the tally of the macros, and the numbers of the
// latest run.
#[derive(Clone, Copy)]
struct Works {
    camera: Camera,
    tally: Tally,
    latest: Latest,
}

// What executing a group leaves: the camera, and the code of each entry.
#[derive(Drop)]
struct Executed {
    camera: Camera,
    codes: [u8; 64],
}

fn pace_of(series: Series) -> Pace
    ensures { result ≡ pace_of series }
{
    Pace {
        time: series.time,
        interval: series.interval,
        count: series.count,
    }
}

// The camera after an accepted command; an appended one is only stored.
fn camera_after(camera: Camera, command: Command) -> Camera
    ensures { result ≡ camera_after camera command }
{
    if command.flag {
        camera
    } else {
        camera.executed(command.kind)
    }
}

// An accepted command takes effect on camera and tally, and on the lent pool.
fn take_effect(works: Works, pool: &mut [u32; 576], command: Command) -> Works
    ensures value { result ≡ works_after works command }
    ensures pool_after { pool.new ≡ pool_after pool.old works.tally command }
{
    store::keep(pool, works.tally, command);
    Works {
        camera: camera_after(works.camera, command),
        tally: works.tally.applied(command),
        ..works
    }
}

// The bench that is at work on this pool.
fn bench_of(works: Works, pool: [u32; 576]) -> Bench
    ensures { result ≡ bench_of works pool }
{
    Bench {
        camera: works.camera,
        store: Store::of_parts(pool, works.tally),
        latest: works.latest,
    }
}

// The fields of the status frame. They do not look at the pool.
fn fields(works: Works) -> Frame
    ensures { result ≡ status_of (bench_of works []) }
{
    let camera = works.camera;
    let tally = works.tally;
    Frame {
        image: pace_of(camera.image),
        track: pace_of(camera.track),
        x: camera.x,
        y: camera.y,
        xgoal: camera.xgoal,
        ygoal: camera.ygoal,
        power: camera.power,
        auto: camera.auto,
        looping: camera.looping,
        algorithm: camera.algorithm,
        flushes: camera.flushes,
        running: tally.running,
        opened: tally.opened,
        left: tally.left,
        closed: store::marks_of(tally.closed),
    }
}

// The rules outside the macro store: those of the status frame, and of both series. They do not look at the pool.
fn obeys(works: Works) -> bool
    ensures { result ≡ rules_hold (bench_of works []) }
{
    frame::obeys(fields(works)) && works.camera.image.is_paced() && works.camera.track.is_paced()
}

// What a second handed over is executed, each entry before the next; one that is dark as its turn comes has no effect, and its code says so.
fn executed_all(camera: Camera, group: Group) -> Executed
    ensures { result ≡ executed_with camera (kinds_in group) }
{
    let mut next = camera;
    let mut codes: [u8; 64] = [0; 64];
    // The loop's invariant speaks of the end by this name.
    let size = store::group_size(group.count);
    for i in 0..size {
        let kind = store::handed_at(&group.words, i);
        if camera::is_dark(next.power, kind) {
            codes[i] = DARK;
        } else {
            next = next.executed(kind);
        }
    }
    Executed {
        camera: next,
        codes,
    }
}

// The camera of a second: first each series, then what was handed over is executed.
fn camera_second(camera: Camera, group: Group) -> Executed
    ensures { result ≡ executed_with (camera_second camera) (kinds_in group) }
{
    executed_all(camera.second(), group)
}

impl Bench {
    /// A fresh bench. Rules: "Fresh".
    pub fn fresh() -> Bench
        ensures { result ≡ fresh_bench }
    {
        Bench {
            camera: Camera::fresh(),
            store: Store::fresh(),
            latest: Latest::none(),
        }
    }

    // The bench at work, without its pool; the lengths of its macros are not worked out.
    fn works(&self) -> Works
        ensures { result ≡ works_of self.now }
    {
        Works {
            camera: self.camera,
            tally: self.store.bare(),
            latest: self.latest,
        }
    }

    // The tally of the macros, where the state is sound.
    fn tally(&self) -> Result<Tally, Unsound>
        ensures sound { is_ok result ≡ bench_sound self.now }
        ensures tally_value { IfOk result (λ tally. tally ≡ tally_of self.now.store) }
    {
        let works = self.works();
        let survey = store::survey(&self.store.pool, works.tally);
        if survey.sound && obeys(works) {
            Ok(survey.tally)
        } else {
            Err(Unsound)
        }
    }

    /// Is this state sound: do the fields of the status frame, both series and the macros obey their rules? Rules: "Sound states".
    pub fn is_sound(self) -> bool
        ensures { result ≡ bench_sound self }
    {
        self.tally().is_ok()
    }

    // An accepted command takes effect, by the tally of the macros.
    fn applied(self, tally: Tally, command: Command) -> Bench
        ensures { result ≡ effect_by self tally command }
    {
        let mut pool = self.store.pool;
        let works = Works {
            camera: self.camera,
            tally,
            latest: self.latest,
        };
        let works = take_effect(works, &mut pool, command);
        bench_of(works, pool)
    }

    /// The bench after a decoded command. A refused command changes nothing.
    ///
    /// # Errors
    ///
    /// 27, then 8 to 10, 26, 11 to 15, 25 and 16 to 19. Rules: "Which call tries what".
    pub fn carry_out(self, command: Command) -> Result<Bench, Rejection>
        ensures { outcome_of self result ≡ carry_out self command }
    {
        let tally = self.tally()?;
        let command = decide(self.camera.power, tally, command)?;
        Ok(self.applied(tally, command))
    }

    /// The bench after the command at the front of these bytes. A refused command changes nothing.
    ///
    /// # Errors
    ///
    /// 27, then 1 to 10, 26, 11 to 15, 25 and 16 to 19. Rules: "Which call tries what".
    pub fn carry_out_bytes(self, bytes: &[u8]) -> Result<Bench, Rejection>
        ensures { outcome_of self result ≡ carry_out_bytes self bytes.now }
    {
        let tally = self.tally()?;
        let command = decide_bytes(self.camera.power, tally, bytes)?;
        Ok(self.applied(tally, command))
    }

    /// A second passes: the two series, then the running macro's next group. Rules: "One second".
    ///
    /// # Errors
    ///
    /// 27 where the bench is not sound.
    pub fn second(self) -> Result<Passed, Unsound>
        ensures result_value { passed_of self result ≡ second_at self }
        ensures group_value { IfOk result (λ passed. passed.group ≡ group_of (second_at self).handed) }
        ensures codes_value { IfOk result (λ passed. passed.codes ≡ codes_shown (second_at self).codes) }
    {
        let works = self.works();
        if !obeys(works) {
            return Err(Unsound);
        }
        let step = store::second(&self.store.pool, works.tally)?;
        let executed = camera_second(self.camera, step.group);
        let store = Store {
            running: step.running,
            left: step.left,
            ..self.store
        };
        let bench = Bench {
            camera: executed.camera,
            store,
            ..self
        };
        // The language asks for a variable where a field that is an array goes into a literal.
        let codes = executed.codes;
        Ok(Passed {
            bench,
            codes,
            group: step.group,
        })
    }

    /// The status frame.
    ///
    /// # Errors
    ///
    /// 27 where the bench is not sound.
    pub fn status(self) -> Result<Frame, Unsound>
        ensures { told_status result ≡ status_at self }
    {
        self.tally()?;
        Ok(fields(self.works()))
    }

    /// How many macro entries are free: 192 less those of the open and the closed macros.
    ///
    /// # Errors
    ///
    /// 27 where the bench is not sound.
    pub fn free(self) -> Result<u8, Unsound>
        ensures { told_free result ≡ free_at self }
    {
        let tally = self.tally()?;
        Ok(tally.free())
    }

    /// The numbers of the housekeeping frame: those of the latest run, and the macro entries that are free.
    ///
    /// # Errors
    ///
    /// 27 where the bench is not sound.
    pub fn housekeeping(self) -> Result<Housekeeping, Unsound>
        ensures { told_housekeeping result ≡ housekeeping_at self }
    {
        let free = self.free()?;
        Ok(Housekeeping {
            received: self.latest.received,
            failed: self.latest.failed,
            code: self.latest.code,
            free,
        })
    }
}
