//! Two benches compared, in every field and every word of the pool, in use or not; and two states of four seats, in every place of their queues.
use bench::Bench;
use seats::{Queue, Seats};
use store::Store;
use wire::Command;

/// The words of the pool, three to an entry.
pub const WORDS: usize = 3 * store::ENTRIES;

// The same macros and the same words in the whole pool? By its fields: a store derives no equality, since nothing but this program would use one on its 3 KB.
fn same_store(a: &Store, b: &Store) -> bool {
    a.pool == b.pool
        && a.counts == b.counts
        && a.closed == b.closed
        && a.opened == b.opened
        && a.running == b.running
        && a.left == b.left
}

/// Is the second bench the first, as it came?
pub fn same(a: &Bench, b: &Bench) -> bool {
    a.camera == b.camera && same_store(&a.store, &b.store) && a.latest == b.latest
}

// The same command? Goals by their bits, where `==` would take both zeros for one, and no NaN for itself.
fn same_command(a: Command, b: Command) -> bool {
    let ours = wire::parts_of(a.kind);
    let theirs = wire::parts_of(b.kind);
    a.flag == b.flag
        && ours.form == theirs.form
        && ours.first == theirs.first
        && ours.second == theirs.second
}

/// The same queue, in every place, whether a command waits there or not?
pub fn same_queue(a: &Queue, b: &Queue) -> bool {
    let mut pairs = a.commands.iter().zip(b.commands.iter());
    a.count == b.count
        && a.queued == b.queued
        && pairs.all(|(ours, theirs)| same_command(*ours, *theirs))
}

/// Are the second seats the first, as they came?
pub fn same_seats(a: &Seats, b: &Seats) -> bool {
    let mut pairs = a.queues.iter().zip(b.queues.iter());
    a.last == b.last
        && same(&a.bench, &b.bench)
        && pairs.all(|(ours, theirs)| same_queue(ours, theirs))
}
