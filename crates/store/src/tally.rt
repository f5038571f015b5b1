//! A tally: the store without its pool, and what each macro spans. It is all that codes 11 to 19 and 25 ask, so a run of lists judges and carries out
//! its commands by a tally, and the pool stays where it is. Rules: "Codes, in the order they are tried", "Fresh".
ghost use Rattle.std.specs.Prelude.{◌≡◌, ◌≤◌, false, get_or};
ghost use Rattle.store.specs.Pool.{size_of, start_of};
ghost use Rattle.store.specs.SpanSteps.{no_span, leads};
ghost use Rattle.store.specs.Checks.{told_permit};
ghost use Rattle.store.specs.TallySteps.{used_by, free_by, takes_by, passes_by, tally_code, pool_after, appended_by, executed_by, tally_after};

use super::arrays::put;
use super::checks::Denial;
use super::roles::Role;
use super::spans::{Span, beat_of, joined_with, seconds_of};
use super::{ENTRIES, MACROS, NONE, checks, pool};
use wire::Command;

/// The numbers and marks of a store, and what each macro spans, up to 601 seconds and 65 entries.
// Open fields, arrays side by side and 255 for none, as in `Store` and for its reason.
#[derive(Clone, Copy)]
pub struct Tally {
    pub counts: [u8; 8],
    pub closed: [bool; 8],
    pub spans: [Span; 8],
    pub opened: u8,
    pub running: u8,
    pub left: u16,
}

/// What a survey of a store finds: whether it is sound, and its tally.
// `sound` beside the tally and no Result: the tally of an unsound store is told too (`survey_of`).
#[derive(Clone, Copy)]
pub struct Survey {
    pub sound: bool,
    pub tally: Tally,
}

/// A plain command that is executed: the store neither refuses nor keeps it.
fn passes_by(flag: bool, role: Role) -> bool
    ensures { result ≡ passes_by flag role }
{
    !flag && role.is_plain()
}

impl Tally {
    /// The entries that macro m counts; none for a number that no macro has.
    pub(crate) fn count(&self, m: u8) -> u8
        ensures { result ≡ get_or self.now.counts m 0 }
    {
        self.counts.get(m as usize).copied().unwrap_or(0)
    }

    /// Is macro m closed? A number that no macro has is not.
    pub(crate) fn is_closed(&self, m: u8) -> bool
        ensures { result ≡ get_or self.now.closed m false }
    {
        self.closed.get(m as usize).copied().unwrap_or(false)
    }

    /// What macro m spans; nothing for a number that no macro has.
    pub(crate) fn span(&self, m: u8) -> Span
        ensures { result ≡ get_or self.now.spans m no_span }
    {
        self.spans.get(m as usize).copied().unwrap_or_default()
    }

    /// The entries that macro m has in the pool.
    pub(crate) fn size(&self, m: u8) -> usize
        ensures { (result ≡ size_of self.now.counts self.now.closed self.now.opened m) × (result ≤ 255) }
    {
        pool::size_of(self.counts, self.closed, self.opened, m)
    }

    /// Where macro m starts in the pool: behind the macros in use below it.
    pub(crate) fn start(&self, m: u8) -> usize
        ensures { result ≡ start_of self.now.counts self.now.closed self.now.opened m }
    {
        pool::start_of(self.counts, self.closed, self.opened, m)
    }

    /// The entries in use.
    pub(crate) fn used(&self) -> usize
        ensures { result ≡ used_by self.now }
    {
        self.start(MACROS as u8)
    }

    /// Does a RUN in macro m add anything? Its target is a closed macro with a smaller number.
    pub(crate) fn leads(&self, m: u8, target: u8) -> bool
        ensures { result ≡ leads self.now.closed m target }
    {
        target < m && self.is_closed(target)
    }

    /// Is a command allowed that passed codes 1 to 10? Rules: "Codes, in the order they are tried".
    ///
    /// # Errors
    ///
    /// The first `Denial` that holds, of codes 11 to 15, 25 and 16 to 19 in this order.
    // By value, as `free` and `applied`: a rule of the project for state.
    #[tactic(auto, using(crate::proofs::Laws::passed_by), unfolding(crate::specs::TallySteps::tally_code))]
    pub fn permits(self, command: Command) -> Result<(), Denial>
        ensures { told_permit result ≡ tally_code self command }
    {
        let flag = command.flag;
        let role = Role::of(command.kind);
        if passes_by(flag, role) {
            return Ok(());
        }
        let opened = self.opened;
        let count = self.count(opened);
        let span = self.span(opened);
        if checks::lacks_open(flag, role, opened) {
            return Err(Denial::NoneOpen);
        }
        if checks::opens_another(role, opened) {
            return Err(Denial::AnotherOpen);
        }
        if checks::opens_closed(role, &self) {
            return Err(Denial::AlreadyClosed);
        }
        if checks::closes_empty(role, count) {
            return Err(Denial::NoEntries);
        }
        if checks::closes_too_long(role, seconds_of(span)) {
            return Err(Denial::TooLong);
        }
        if checks::closes_too_many(role, span.most) {
            return Err(Denial::TooMany);
        }
        checks::permits_entry(flag, role, &self)
    }

    /// The entries that are free, 0 to 192: the appends that an open macro would still take.
    pub fn free(self) -> u8
        ensures { result ≡ free_by self }
    {
        ENTRIES.saturating_sub(self.used()) as u8
    }

    /// Is a macro open, and an entry free?
    fn takes(&self) -> bool
        ensures { result ≡ takes_by self.now }
    {
        (self.opened as usize) < MACROS && self.used() < ENTRIES
    }

    /// One entry more of the open macro.
    fn appended(self, role: Role) -> Tally
        ensures { result ≡ appended_by self role }
    {
        if !self.takes() {
            return self;
        }
        let opened = self.opened;
        let count = self.count(opened) + 1;
        let span = joined_with(self.span(opened), beat_of(role), &self, opened);
        // Tried: both put into one whole tally; slower (a run of 512 macro commands 37 us of 35), so each array is written by itself.
        let mut counts = self.counts;
        let mut spans = self.spans;
        put(&mut counts, opened, count);
        put(&mut spans, opened, span);
        Tally {
            counts,
            spans,
            ..self
        }
    }

    /// Macro m is open, and has no entries.
    fn opening(self, m: u8) -> Tally
        ensures { result ≡ executed_by self (Role.Open m) }
    {
        let mut counts = self.counts;
        let mut spans = self.spans;
        put(&mut counts, m, 0);
        put(&mut spans, m, Span::default());
        Tally {
            counts,
            spans,
            opened: m,
            ..self
        }
    }

    /// The open macro is closed.
    fn closing(self) -> Tally
        ensures { result ≡ executed_by self Role.Close }
    {
        let mut closed = self.closed;
        put(&mut closed, self.opened, true);
        Tally {
            closed,
            opened: NONE,
            ..self
        }
    }

    /// Macro m runs, with all its seconds left.
    fn starting(self, m: u8) -> Tally
        ensures { result ≡ executed_by self (Role.Run m) }
    {
        Tally {
            running: m,
            left: seconds_of(self.span(m)),
            ..self
        }
    }

    /// The tally after a command that is executed.
    fn executed(self, role: Role) -> Tally
        ensures { result ≡ executed_by self role }
    {
        match role {
            Role::Plain | Role::Wait(_) => self,
            Role::Open(m) => self.opening(m),
            Role::Close => self.closing(),
            Role::Run(m) => self.starting(m),
            Role::Stop => Tally {
                running: NONE,
                left: 0,
                ..self
            },
            Role::Clear => Tally {
                counts: [0; 8],
                closed: [false; 8],
                opened: NONE,
                ..self
            },
        }
    }

    /// The tally after an accepted command: an appended one is an entry more, an executed one does what it says.
    #[tactic(auto, using(crate::proofs::Laws::passed_by), unfolding(crate::specs::TallySteps::tally_after))]
    pub fn applied(self, command: Command) -> Tally
        ensures { result ≡ tally_after self command }
    {
        let flag = command.flag;
        let role = Role::of(command.kind);
        if passes_by(flag, role) {
            return self;
        }
        if flag {
            self.appended(role)
        } else {
            self.executed(role)
        }
    }
}

/// The pool after an accepted command: an appended one is put behind the open macro's last entry, and what lies behind moves up. The tally is the one before
/// the command. Where none is open, no entry is free or the command is executed, the pool stays as it was. Rules: "Fresh".
pub fn keep(words: &mut [u32; 576], tally: Tally, command: Command)
    ensures { words.new ≡ pool_after words.old tally command }
{
    if command.flag {
        pool::append(words, &tally, command);
    }
}
