//! What is left of a damaged list: the commands in it that codes 1 to 8 let pass are kept, and beside them it is told which stretches of bytes were skipped.
//! All of it is read into buffers first, and only then are the rooms touched. Rules: "Rescue a damaged list".
#![tactic(auto)]

ghost use Rattle.std.specs.Prelude.{◌≤◌, ◌≡◌, length};
ghost use Rattle.std.proofs.Common.{rules};
ghost use Rattle.words.specs.Text.{place_after, stored_at};
ghost use Rattle.wire.specs.Judge.{told_of};
ghost use Rattle.rescue.specs.Pieces.{passes, passing, stretch_to, table_of};
ghost use Rattle.rescue.specs.Answers.{refusal_code, answer_of, table_size, rescued_as, room_after, table_after};
ghost use Rattle.rescue.specs.Steps.{Gathered};

use words::Code;

/// The bytes of one stretch in a table: two numbers of 16 bits, its start and its length.
pub const STRETCH: usize = 4;

/// The most stretches of a list that is taken: between two of them lies a command, which has eight bytes at least.
pub const MOST: usize = 456;

/// Room for a table of the most stretches.
pub const TABLE: usize = MOST * STRETCH;

// The bytes of the longest command.
const LONGEST_COMMAND: usize = 128;

/// How many bytes were kept, and how many stretches skipped.
#[derive(Clone, Copy, Debug, PartialEq, Eq)]
pub struct Rescued {
    pub kept: usize,
    pub stretches: usize,
}

impl Rescued {
    /// How many bytes of the table were written. No list that is taken has more than the most stretches.
    pub fn table(self) -> usize
        ensures { result ≡ table_size self.stretches }
    {
        self.stretches.min(MOST) * STRETCH
    }
}

/// Why nothing was written.
#[derive(Clone, Copy, Debug, PartialEq, Eq)]
pub enum Refusal {
    /// The list has more bytes than a list may have (20).
    TooLong,
    /// The commands that are kept, or the stretches, have too little room (24).
    NoRoom,
}

impl Code for Refusal {
    ghost code = { refusal_code };

    ghost refuses = { Prim.search rules };

    fn code(&self) -> u8 {
        match self {
            Refusal::TooLong => 20,
            Refusal::NoRoom => 24,
        }
    }
}

// What was gathered: how many bytes of commands, and how many of the table of stretches.
#[derive(Drop)]
struct Sums {
    kept: usize,
    table: usize,
}

// Is a refusal about the flag alone? Then the command is kept though it is refused.
fn is_for_flag(refusal: wire::Refusal) -> bool
    ensures { result ≡ passes (told_of refusal).code }
{
    matches!(
        refusal,
        wire::Refusal::FlagForbidden | wire::Refusal::FlagMissing
    )
}

// Does the command at the front pass, as its reading says?
fn reads_well(s: &[u8]) -> bool
    ensures { result ≡ passing s.now }
{
    match wire::read_command(s) {
        Ok(_) => true,
        Err(refusal) => is_for_flag(refusal),
    }
}

// Do codes 1 to 8 let the command at the front pass? What reaches further than any command can is not read: nearly every byte of noise is such a place
// (speed/README.md has the figures).
fn passes(s: &[u8]) -> bool
    ensures { result ≡ passing s.now }
{
    wire::span(s) <= LONGEST_COMMAND && reads_well(s)
}

// Puts the stretch of so many bytes that ends at a place of the list into a table, from a place on, and says which place comes next. There is none
// where no byte was skipped.
fn put_stretch(table: &mut [u8], pos: usize, end: usize, run: usize) -> usize
    requires run_le_end { run ≤ end }
    requires end_bound { end ≤ 4096 }
    ensures value { result ≡ place_after (table_of (stretch_to end run)) pos table.old }
    ensures table_after { table.new ≡ stored_at (table_of (stretch_to end run)) pos table.old }
{
    if run == 0 {
        return pos;
    }
    let [start_high, start_low] = ((end - run) as u16).to_be_bytes();
    let [size_high, size_low] = (run as u16).to_be_bytes();
    words::put_at(table, pos, &[start_high, start_low, size_high, size_low])
}

// Puts the commands that pass at the front of one buffer, and the stretches between them at the front of another. Each turn reads once at most: it keeps
// a command, or skips a byte. (`while`: a turn goes on by one byte or by a whole command, and no iterator steps so.)
fn gather(list: &[u8], kept: &mut [u8], table: &mut [u8]) -> Sums
    requires list_len_bound { length list.now ≤ 4096 }
    requires in_bounds { 4096 ≤ length kept.old }
    requires in_bounds_2 { 1824 ≤ length table.old }
    ensures { Gathered list.now kept.new table.new result }
{
    let mut at: usize = 0;
    let mut run: usize = 0;
    let mut n: usize = 0;
    let mut m: usize = 0;
    while at < list.len() {
        if !passes(&list[at..]) {
            at += 1;
            run += 1;
            continue;
        }
        let end = at + wire::span(&list[at..]);
        m = put_stretch(table, m, at, run);
        n = words::put_at(kept, n, &list[at..end]);
        at = end;
        run = 0;
    }
    m = put_stretch(table, m, at, run);
    Sums { kept: n, table: m }
}

/// Puts the commands of a damaged list that pass at the front of a room, and the stretches that were skipped at the front of a table, and says how many
/// bytes of the one and how many stretches; what lies behind them stays as it was. A room as long as the list and a table of `TABLE` bytes are always enough.
///
/// # Errors
///
/// `TooLong` (20) where the list has more than `walk::LONGEST` bytes, then `NoRoom` (24) where the room or the table is too small. Both are then as they were.
/// Rules: "Rescue a damaged list".
pub fn rescue(list: &[u8], room: &mut [u8], table: &mut [u8]) -> Result<Rescued, Refusal>
    ensures result_value { answer_of result ≡ rescued_as list.now room.old table.old }
    ensures room_after { room.new ≡ room_after list.now room.old table.old }
    ensures table_after { table.new ≡ table_after list.now room.old table.old }
{
    if walk::LONGEST < list.len() {
        return Err(Refusal::TooLong);
    }
    let mut kept = [0u8; walk::LONGEST];
    let mut stretches = [0u8; TABLE];
    let sums = gather(list, &mut kept, &mut stretches);
    if room.len() < sums.kept || table.len() < sums.table {
        return Err(Refusal::NoRoom);
    }
    room[..sums.kept].copy_from_slice(&kept[..sums.kept]);
    table[..sums.table].copy_from_slice(&stretches[..sums.table]);
    Ok(Rescued {
        kept: sums.kept,
        stretches: sums.table / STRETCH,
    })
}
