//! The macro store: what each macro holds, which is open or runs, codes 11 to 19 and 25, the written-out list of a macro and its seconds.
//! Every public function is total: a store that no command sequence can reach is answered too, and nothing runs on.
//! Macros have the numbers 0 to 7, and 255 stands for none; times are whole seconds. State goes in by value, and the next one is handed back: a rule of the
//! project. Rules: "Limits", "Fresh", "One second", "The written-out list", "Sound states".
#![tactic(auto)]

ghost use Rattle.std.specs.Prelude.{◌≡◌, cond, eqb};
ghost use Rattle.std.proofs.Common.{rules};
ghost use Rattle.store.specs.Pool.{marks_of};
ghost use Rattle.store.specs.Effects.{fresh_store};
ghost use Rattle.store.specs.TallySteps.{store_of, bare_of, survey_of};
ghost use Rattle.store.specs.SecondSteps.{stepped_of};

mod arrays;
mod checks;
mod groups;
mod pool;
mod roles;
mod soundness;
mod spans;
mod tally;

pub use checks::Denial;
pub use groups::{Group, group_size, handed_at};
pub use roles::Role;
pub use spans::Span;
pub use tally::{Survey, Tally, keep};
use words::Code;

/// How many macros there are.
pub const MACROS: usize = 8;

/// How many entries they share.
pub const ENTRIES: usize = 192;

/// The number that stands for no macro.
// No Option: it stands in the open fields of `Store` and `Tally`.
const NONE: u8 = 255;

/// The longest a macro runs, in seconds.
const LONGEST: u16 = 600;

/// The length that every longer one is told as.
// A number and no case of an enum: it is added and compared as the others are (`min 601` of specs/).
const TOO_LONG: u16 = 601;

/// The most entries that one second has.
pub const GROUP: usize = 64;

/// The number that every larger one is told as.
// A number as TOO_LONG is, and for its reason (`min 65`).
const TOO_MANY: u8 = 65;

/// All entries in one pool, three words to each; of each macro how many entries it counts, which it has while it is open or closed, and whether it is
/// closed; the macro that is open and the one that runs, 0 to 7 or 255, and the running one's seconds left, up to 600. Rules: "Fresh", "Sound states".
// Open fields, arrays side by side and 255 for none: tests set them to unsound values, and `survey` and theorems answer for these.
#[derive(Clone, Copy)]
pub struct Store {
    pub pool: [u32; 576],
    pub counts: [u8; 8],
    pub closed: [bool; 8],
    pub opened: u8,
    pub running: u8,
    pub left: u16,
}

/// A second of a sound store: the macro that runs afterwards with its seconds left, and the group that was handed over.
#[derive(Clone, Copy)]
pub struct Step {
    pub running: u8,
    pub left: u16,
    pub group: Group,
}

/// The store is not sound: no command sequence reaches it.
#[derive(Clone, Copy, Debug, PartialEq, Eq)]
pub struct Unsound;

impl Code for Unsound {
    ghost code = { λ _. 27 };

    ghost refuses = { Prim.search rules };

    fn code(&self) -> u8 {
        27
    }
}

/// The macro that runs on with so many seconds left; none after the last one.
fn still_running(running: u8, left: u16) -> u8
    ensures { result ≡ cond (eqb left 0) 255 running }
{
    if left == 0 { NONE } else { running }
}

impl Store {
    /// A fresh store: nothing is open, closed or running, and the pool is all zeros. Rules: "Fresh".
    pub fn fresh() -> Store
        ensures { result ≡ fresh_store }
    {
        Store {
            pool: [0; 576],
            counts: [0; 8],
            closed: [false; 8],
            opened: NONE,
            running: NONE,
            left: 0,
        }
    }

    /// A store from its pool and its tally; the spans are left out.
    pub fn of_parts(pool: [u32; 576], tally: Tally) -> Store
        ensures { result ≡ store_of pool tally }
    {
        // Taken apart first: a field that is an array cannot be taken straight into a literal.
        let Tally {
            counts,
            closed,
            opened,
            running,
            left,
            ..
        } = tally;
        Store {
            pool,
            counts,
            closed,
            opened,
            running,
            left,
        }
    }

    /// The store's numbers and marks, as a tally whose spans are not worked out.
    pub fn bare(self) -> Tally
        ensures { result ≡ bare_of self }
    {
        // Taken apart first, as in `of_parts`.
        let Store {
            counts,
            closed,
            opened,
            running,
            left,
            ..
        } = self;
        Tally {
            counts,
            closed,
            spans: [Span::default(); 8],
            opened,
            running,
            left,
        }
    }
}

/// Whether the store that these two are is sound, and its tally; the spans are worked out once for both. The spans that come with the tally are not asked.
/// Rules: "Sound states".
pub fn survey(pool: &[u32; 576], tally: Tally) -> Survey
    ensures { result ≡ survey_of (store_of pool.now tally) }
{
    let measured = spans::spans_below(pool, tally, MACROS as u8);
    let spans = measured.spans;
    let tally = Tally { spans, ..tally };
    let sound = soundness::holds(pool, &tally, measured.end);
    Survey { sound, tally }
}

/// The second of the two things that a second does: the running macro's next group is handed over, and one second less is left. With no macro running the
/// group is empty. Rules: "One second".
///
/// # Errors
///
/// `Unsound` (27) where the store is not sound; it stays as it is then, and nothing is handed over.
#[tactic(auto, unfolding(crate::specs::SecondSteps::stepped_of))]
pub fn second(pool: &[u32; 576], tally: Tally) -> Result<Step, Unsound>
    ensures { result ≡ stepped_of (store_of pool.now tally) }
{
    let running = tally.running;
    let left = tally.left;
    let survey = survey(pool, tally);
    if !survey.sound {
        return Err(Unsound);
    }
    if running == NONE {
        let group = Group::none();
        return Ok(Step {
            running,
            left,
            group,
        });
    }
    let tally = survey.tally;
    let group = groups::group_due(pool, &tally, running, left);
    let left = left.saturating_sub(1);
    Ok(Step {
        running: still_running(running, left),
        left,
        group,
    })
}

/// The closed macros as a byte, bit m for macro m.
pub fn marks_of(closed: [bool; 8]) -> u8
    ensures { result ≡ marks_of closed }
{
    arrays::byte_of(closed)
}
