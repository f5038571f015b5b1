//! What a macro spans, without writing it out: a table over the macros, each by its entries and the spans of those below it.
//! The macro number falls at each call, and the pool's words are only lent, so eight calls visit at most 192 entries, on every store.
//! Rules: "The written-out list".
ghost use Rattle.std.specs.Prelude.{◌+◌, ◌≤◌, min, ◌≡◌, length};
ghost use Rattle.store.specs.Pool.{between};
ghost use Rattle.store.specs.PoolSteps.{command_in};
ghost use Rattle.store.specs.SpanSteps.{no_span, entries_span, wait_span, grown, joined_of, behind, length_of, span_in, spans_from, measured_to};
ghost use Rattle.store.specs.SpanSteps.{beat_of, beat_in, beat_as, leads};
ghost use Rattle.store.specs.TallySteps.{store_of};

use super::pool::{Entry, end_of, entry_at};
use super::roles::Role;
use super::tally::Tally;
use super::{TOO_LONG, TOO_MANY};
use wire::Form;

/// What an entry is to the seconds of its macro: one that is handed over, a WAIT, or a RUN.
#[derive(Clone, Copy)]
pub(crate) enum Beat {
    Entry,
    Wait(u16),
    Run(u8),
}

/// What a list spans: the sum of its waits, the entries of its first second and those behind its last WAIT, the most in any second, and whether it has
/// a WAIT. It is told up to 601 seconds and 65 entries.
#[derive(Clone, Copy, Debug, PartialEq, Eq, Default)]
pub struct Span {
    pub waits: u16,
    pub first: u8,
    pub last: u8,
    pub most: u8,
    pub waited: bool,
}

/// The spans of the macros below a number, and where the next one starts in the pool, in entries.
// A struct and no pair: the meaning names its parts (`measured_to`).
#[derive(Drop)]
pub(crate) struct Measured {
    pub spans: [Span; 8],
    pub end: usize,
}

/// A sum of seconds, told up to TOO_LONG.
fn added(a: u16, b: u16) -> u16
    ensures { result ≡ min 601 (a + b) }
{
    a.saturating_add(b).min(TOO_LONG)
}

/// A sum of entries, told up to TOO_MANY.
fn together(a: u8, b: u8) -> u8
    ensures { result ≡ min 65 (a + b) }
{
    a.saturating_add(b).min(TOO_MANY)
}

/// The entries at an end of two lists one after another: those of the outer one, and of the other one too where the outer one has no WAIT.
fn grow(waited: bool, kept: u8, more: u8) -> u8
    ensures { result ≡ min 65 (grown waited kept more) }
{
    together(kept, if waited { 0 } else { more })
}

/// The span of two lists one after another.
fn joined(a: Span, b: Span) -> Span
    ensures { result ≡ joined_of a b }
{
    let most = a.most.max(b.most).max(together(a.last, b.first));
    Span {
        waits: added(a.waits, b.waits),
        first: grow(a.waited, a.first, b.first),
        last: grow(b.waited, b.last, a.last),
        most: most.min(TOO_MANY),
        waited: a.waited || b.waited,
    }
}

/// The span of so many entries without a WAIT.
fn entries_span(count: u8) -> Span
    ensures { result ≡ entries_span count }
{
    Span {
        first: count,
        last: count,
        most: count,
        ..Span::default()
    }
}

/// The span of a WAIT alone.
fn wait_span(seconds: u16) -> Span
    ensures { result ≡ wait_span seconds }
{
    Span {
        waits: seconds.min(TOO_LONG),
        waited: 0 < seconds,
        ..Span::default()
    }
}

/// The seconds of a span, up to 601.
pub(crate) fn seconds_of(span: Span) -> u16
    ensures { result ≡ length_of span }
{
    added(span.waits, if 0 < span.last { 1 } else { 0 })
}

/// What an entry of a role is to the seconds of its macro.
pub(crate) fn beat_of(role: Role) -> Beat
    ensures { result ≡ beat_of role }
{
    match role {
        Role::Run(target) => Beat::Run(target),
        Role::Wait(seconds) => Beat::Wait(seconds),
        _ => Beat::Entry,
    }
}

/// A RUN by its two arguments, of which a range test leaves eight bits and no more. Out of range they are no command, which is an entry as most are.
fn run_beat(first: u32, second: u32) -> Beat
    ensures { result ≡ beat_as Form.Run first second }
{
    if wire::first_bad(wire::row_of(Form::Run), first, second).is_some() {
        return Beat::Entry;
    }
    Beat::Run((first % 256) as u8)
}

/// The same for a WAIT, whose seconds have 16 bits.
fn wait_beat(first: u32, second: u32) -> Beat
    ensures { result ≡ beat_as Form.Wait first second }
{
    if wire::first_bad(wire::row_of(Form::Wait), first, second).is_some() {
        return Beat::Entry;
    }
    Beat::Wait((first % 65536) as u16)
}

/// An entry by its words: most entries are told by two comparisons.
// No match: the opcodes stand in wire's table alone, and a pattern cannot ask it.
pub(crate) fn beat_in(entry: Entry) -> Beat
    ensures { result ≡ beat_in (command_in entry) }
{
    let opcode = entry.head / 2;
    let run = wire::row_of(Form::Run);
    if opcode == run.opcode as u32 {
        return run_beat(entry.first, entry.second);
    }
    let wait = wire::row_of(Form::Wait);
    if opcode == wait.opcode as u32 {
        return wait_beat(entry.first, entry.second);
    }
    Beat::Entry
}

/// The span of a RUN in macro m.
fn run_span(tally: &Tally, m: u8, target: u8) -> Span
    ensures { result ≡ span_in tally.now.closed tally.now.spans m (Beat.Run target) }
{
    if tally.leads(m, target) {
        tally.span(target)
    } else {
        Span::default()
    }
}

/// The span of a list and so many entries behind it.
fn with_entries(sum: Span, count: u8) -> Span
    ensures { result ≡ behind sum count }
{
    if count == 0 {
        sum
    } else {
        joined(sum, entries_span(count))
    }
}

/// The span of a list and an entry of macro m behind it.
pub(crate) fn joined_with(sum: Span, beat: Beat, tally: &Tally, m: u8) -> Span
    ensures { result ≡ joined_of sum (span_in tally.now.closed tally.now.spans m beat) }
{
    match beat {
        Beat::Entry => joined(sum, entries_span(1)),
        Beat::Wait(seconds) => joined(sum, wait_span(seconds)),
        Beat::Run(target) => joined(sum, run_span(tally, m, target)),
    }
}

/// The span of the entries of macro m, which start here and are so many, by the spans of the macros below it. Entries without a WAIT or a RUN between
/// them are only counted, and joined together.
// A loop and no fold: sum and count go along, and a fold over the pair is no plainer.
fn span_by(words: &[u32], start: usize, size: usize, tally: &Tally, m: u8) -> Span
    requires { (length words.now ≡ 576) × (size ≤ 255) }
    ensures { result ≡ spans_from tally.now.closed tally.now.spans m no_span (between words.now start size) }
{
    let end = end_of(start, size);
    let mut sum = Span::default();
    let mut count: u8 = 0;
    for i in start..end {
        match beat_in(entry_at(words, i)) {
            Beat::Entry => {
                count = together(count, 1);
            }
            Beat::Wait(seconds) => {
                sum = joined(with_entries(sum, count), wait_span(seconds));
                count = 0;
            }
            Beat::Run(target) => {
                sum = joined(with_entries(sum, count), run_span(tally, m, target));
                count = 0;
            }
        }
    }
    with_entries(sum, count)
}

/// The spans of the macros below n, each by those below it.
// By recursion over the macro numbers, a rule of the project.
#[tactic(auto, unfolding(crate::specs::SpanSteps::spans_to, crate::specs::Pool::start_of))]
pub(crate) fn spans_below(words: &[u32], tally: Tally, n: u8) -> Measured
    requires { (length words.now ≡ 576) × (n ≤ 8) }
    ensures { result ≡ measured_to (store_of words.now tally) n }
{
    if n == 0 {
        return Measured {
            spans: [Span::default(); 8],
            end: 0,
        };
    }
    let m = n - 1;
    let below = spans_below(words, tally, m);
    let size = tally.size(m);
    let mut spans = below.spans;
    let told = Tally { spans, ..tally };
    spans[m as usize] = span_by(words, below.end, size, &told, m);
    Measured {
        spans,
        end: below.end + size,
    }
}
