//! One pool for the entries of all macros: what the words of an entry say, and one entry more.
//! The macros in use, open or closed, lie one behind another in the order of their numbers, so that where one starts follows from the counts.
ghost use Rattle.std.specs.Prelude.{◌+◌, ◌*◌, ◌/◌, ◌<◌, ◌≤◌, min, ◌≡◌, length, get_or};
ghost use Rattle.wire.specs.Table.{rule_of};
ghost use Rattle.store.specs.Words.{no_command, commands_in, head_of, inserted};
ghost use Rattle.store.specs.Pool.{in_use, size_of, start_of, words_after};
ghost use Rattle.store.specs.PoolSteps.{command_in, raised};
ghost use Rattle.store.specs.GroupSteps.{words_in, words_at};

use super::tally::Tally;
use super::{ENTRIES, MACROS};
use wire::{Command, Form};

/// The words of an entry: the opcode with the flag as its lowest bit, and the two arguments.
pub(crate) const WORDS: usize = 3;

/// The words of one entry.
#[derive(Clone, Copy)]
pub(crate) struct Entry {
    pub head: u32,
    pub first: u32,
    pub second: u32,
}

/// The entries that a macro counts; none for a number that no macro has.
fn count_at(counts: [u8; 8], m: u8) -> u8
    ensures { result ≡ get_or counts m 0 }
{
    counts.get(m as usize).copied().unwrap_or(0)
}

/// Is macro m open or closed?
// `opened == m` and no Option: it is asked of every number, and of 255 it says yes while none is open (`in_use`).
fn in_use(closed: [bool; 8], opened: u8, m: u8) -> bool
    ensures { result ≡ in_use closed opened m }
{
    closed.get(m as usize).copied().unwrap_or(false) || opened == m
}

/// The entries that macro m has in the pool.
#[tactic(auto, unfolding(crate::specs::Pool::size_of))]
pub(crate) fn size_of(counts: [u8; 8], closed: [bool; 8], opened: u8, m: u8) -> usize
    ensures { (result ≡ size_of counts closed opened m) × (result ≤ 255) }
{
    if in_use(closed, opened, m) {
        count_at(counts, m) as usize
    } else {
        0
    }
}

/// Where macro m starts in the pool: behind the macros in use below it.
// By value. Tried: as a method of the lent tally; slower (a run of 512 macro commands 42 us of 37), for the compiler then adds up anew for each use, so
// `size` and `start` of a tally hand its three fields on.
pub(crate) fn start_of(counts: [u8; 8], closed: [bool; 8], opened: u8, m: u8) -> usize
    ensures { result ≡ start_of counts closed opened m }
{
    let mut sum: usize = 0;
    for i in 0..m {
        sum += size_of(counts, closed, opened, i);
    }
    sum
}

/// Where entries that start here end, and no further than the pool.
pub(crate) fn end_of(start: usize, size: usize) -> usize
    requires { size ≤ 255 }
    ensures { result ≡ min 192 (start + size) }
{
    start.saturating_add(size).min(ENTRIES)
}

/// What the first word of an entry stands for: it may be too large for an opcode and its flag.
pub(crate) fn found_in(head: u32) -> Option<(Form, u16)>
    ensures { result ≡ rule_of (head / 2) }
{
    wire::rule_of(u16::try_from(head / 2).ok()?)
}

/// Entry i of the pool, or of a group, by its words.
#[tactic(auto, using(crate::proofs::Entries::commands_at))]
pub(crate) fn entry_at(words: &[u32], i: usize) -> Entry
    requires { (i < 192) × (i * 3 + 3 ≤ length words.now) }
    ensures result_value { command_in result ≡ get_or (commands_in words.now) i no_command }
    ensures result_value_2 { words_in result ≡ words_at words.now i }
{
    let at = i * WORDS;
    Entry {
        head: words[at],
        first: words[at + 1],
        second: words[at + 2],
    }
}

/// The first word of an entry.
fn head_of(form: Form, flag: bool) -> u32
    ensures { result ≡ head_of form flag }
{
    let row = wire::row_of(form);
    u32::from(row.opcode) * 2 + u32::from(flag)
}

/// Moves the words from `from` to `to` up by one entry, from the top down.
#[tactic(auto, using(crate::proofs::Moves::raised_whole))]
fn raise(words: &mut [u32], from: usize, to: usize)
    requires { (length words.old ≡ 576) × (from ≤ to) × (to ≤ 573) }
    ensures { words.new ≡ raised words.old from to }
{
    words.copy_within(from..to, from + WORDS);
}

/// Puts an entry in at word `from`; what lies from there to `to` moves up.
#[tactic(auto, using(crate::proofs::Moves::gap_filled))]
fn insert(words: &mut [u32], from: usize, to: usize, command: Command)
    requires { (length words.old ≡ 576) × (from ≤ to) × (to ≤ 573) }
    ensures { words.new ≡ inserted words.old from to command }
{
    let parts = wire::parts_of(command.kind);
    raise(words, from, to);
    words[from] = head_of(parts.form, command.flag);
    words[from + 1] = parts.first;
    words[from + 2] = parts.second;
}

/// One entry more for the open macro, where one is open and an entry is free.
pub(crate) fn append(words: &mut [u32], tally: &Tally, command: Command)
    requires { length words.old ≡ 576 }
    ensures { words.new ≡ words_after words.old tally.now.counts tally.now.closed tally.now.opened command }
{
    let opened = tally.opened;
    if MACROS <= opened as usize {
        return;
    }
    let top = tally.used();
    if ENTRIES <= top {
        return;
    }
    let end = tally.start(opened + 1);
    insert(words, end * WORDS, top * WORDS, command);
}
