//! Rows 11 to 19 and 25 of the codes, each as a test on the few numbers that it looks at. Rules: "Codes, in the order they are tried".
ghost use Rattle.std.specs.Prelude.{◌≡◌};
ghost use Rattle.words.specs.Codes.{first_of};
ghost use Rattle.store.specs.Checks.{code_of, code_of_some, told_permit, row11, row12, row13, row14, row15, row25, row16, row17, row18, row19};
ghost use Rattle.store.specs.TallySteps.{used_by, entry_checks};

use super::roles::Role;
use super::tally::Tally;
use super::{ENTRIES, GROUP, LONGEST, NONE};
use words::Code;

/// Why a command that passed codes 1 to 10 is refused by the macro store. Rules: "Codes, in the order they are tried".
#[derive(Clone, Copy, Debug, PartialEq, Eq)]
pub enum Denial {
    NoneOpen,
    AnotherOpen,
    AlreadyClosed,
    NoEntries,
    TooLong,
    TooMany,
    NoneFree,
    NotBelow,
    NotClosed,
    Running,
}

impl Code for Denial {
    ghost code = { code_of };

    ghost refuses = { code_of_some };

    fn code(&self) -> u8 {
        match self {
            Denial::NoneOpen => 11,
            Denial::AnotherOpen => 12,
            Denial::AlreadyClosed => 13,
            Denial::NoEntries => 14,
            Denial::TooLong => 15,
            Denial::TooMany => 25,
            Denial::NoneFree => 16,
            Denial::NotBelow => 17,
            Denial::NotClosed => 18,
            Denial::Running => 19,
        }
    }
}

/// Row 11: flag 1, or CLOSE, and no macro open.
pub(crate) fn lacks_open(flag: bool, role: Role, opened: u8) -> bool
    ensures { result ≡ row11 flag role opened }
{
    (flag || role.is_close()) && opened == NONE
}

/// Row 12: OPEN while one is open.
pub(crate) fn opens_another(role: Role, opened: u8) -> bool
    ensures { result ≡ row12 role opened }
{
    role.is_open() && opened != NONE
}

/// Row 13: OPEN of a closed macro.
pub(crate) fn opens_closed(role: Role, tally: &Tally) -> bool
    ensures { result ≡ row13 role tally.now.closed }
{
    role.is_open() && tally.is_closed(role.number())
}

/// Row 14: CLOSE of a macro without entries.
pub(crate) fn closes_empty(role: Role, count: u8) -> bool
    ensures { result ≡ row14 role count }
{
    role.is_close() && count == 0
}

/// Row 15: CLOSE where the written-out length exceeds LONGEST.
pub(crate) fn closes_too_long(role: Role, length: u16) -> bool
    ensures { result ≡ row15 role length }
{
    role.is_close() && LONGEST < length
}

/// Row 25: CLOSE where a second has more entries than GROUP.
pub(crate) fn closes_too_many(role: Role, most: u8) -> bool
    ensures { result ≡ row25 role most }
{
    role.is_close() && GROUP < most as usize
}

/// Row 16: an append where no entry is free.
fn lacks_entry(flag: bool, used: usize) -> bool
    ensures { result ≡ row16 flag used }
{
    flag && ENTRIES <= used
}

/// Row 17: appended RUN whose number is not below the open macro's.
fn runs_upward(flag: bool, role: Role, opened: u8) -> bool
    ensures { result ≡ row17 flag role opened }
{
    flag && role.is_run() && opened <= role.number()
}

/// Row 18: RUN of a macro not closed.
fn runs_unclosed(role: Role, tally: &Tally) -> bool
    ensures { result ≡ row18 role tally.now.closed }
{
    role.is_run() && !tally.is_closed(role.number())
}

/// Row 19: executed RUN, or CLEAR, while a macro runs.
fn starts_busy(flag: bool, role: Role, running: u8) -> bool
    ensures { result ≡ row19 flag role running }
{
    ((!flag && role.is_run()) || role.is_clear()) && running != NONE
}

/// Rows 16 to 19, in their order.
pub(crate) fn permits_entry(flag: bool, role: Role, tally: &Tally) -> Result<(), Denial>
    ensures { told_permit result ≡ first_of (entry_checks flag role (used_by tally.now) tally.now.closed tally.now.opened tally.now.running) }
{
    if lacks_entry(flag, tally.used()) {
        return Err(Denial::NoneFree);
    }
    if runs_upward(flag, role, tally.opened) {
        return Err(Denial::NotBelow);
    }
    if runs_unclosed(role, tally) {
        return Err(Denial::NotClosed);
    }
    if starts_busy(flag, role, tally.running) {
        return Err(Denial::Running);
    }
    Ok(())
}
