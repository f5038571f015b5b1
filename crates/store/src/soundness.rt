//! The store's part of a sound state: the entries in use, then every macro against its rules, then the running one.
//! Each entry is visited once; the table of spans comes from the caller. Rules: "Sound states".
ghost use Rattle.std.specs.Prelude.{◌≤◌, ◌≡◌, true, false, ◌&&◌, ◌||◌, length, get_or, leb, eqb};
ghost use Rattle.words.specs.Codes.{first_of};
ghost use Rattle.wire.specs.Judge.{row_checks};
ghost use Rattle.store.specs.Pool.{between};
ghost use Rattle.store.specs.Sound.{entry_holds, store_sound};
ghost use Rattle.store.specs.PoolSteps.{command_in};
ghost use Rattle.store.specs.SpanSteps.{length_of, no_span, spans_to};
ghost use Rattle.store.specs.TallySteps.{store_of, used_by, form_holds, entries_by, macro_by};

use super::pool::{Entry, end_of, entry_at, found_in};
use super::spans::{Span, seconds_of};
use super::tally::Tally;
use super::{ENTRIES, GROUP, LONGEST, MACROS, NONE};
use wire::{Form, Row};

/// Do a flag of 1 and these two numbers pass 8 to 10, by a row of the table?
fn passes(row: Row, first: u32, second: u32) -> bool
    ensures { result ≡ eqb (first_of (row_checks row true first second)) 0 }
{
    wire::judge_by(row, true, first, second).is_ok()
}

/// A RUN in macro m passes 8 and, its target being a closed macro with a smaller number, 17 and 18.
#[tactic(auto, using(crate::proofs::SoundLaws::run_leads))]
fn run_holds(first: u32, second: u32, tally: &Tally, m: u8) -> bool
    ensures { result ≡ form_holds tally.now.closed m Form.Run first second }
{
    // In range, so the eight bits are all of it.
    passes(wire::row_of(Form::Run), first, second) && tally.leads(m, (first % 256) as u8)
}

/// An entry of macro m with flag 1, whose form is known, passes 8 to 10 and, for a RUN, 17 and 18. In each arm the row is a constant.
#[tactic(auto, using(crate::proofs::SoundLaws::form_plain))]
fn form_holds(form: Form, first: u32, second: u32, tally: &Tally, m: u8) -> bool
    ensures { result ≡ form_holds tally.now.closed m form first second }
{
    match form {
        Form::ImgPwr => passes(wire::row_of(Form::ImgPwr), first, second),
        Form::ImgRegion => passes(wire::row_of(Form::ImgRegion), first, second),
        Form::ImgTrack => passes(wire::row_of(Form::ImgTrack), first, second),
        Form::TrkAlg => passes(wire::row_of(Form::TrkAlg), first, second),
        Form::TrkLoop => passes(wire::row_of(Form::TrkLoop), first, second),
        Form::ImgImage => passes(wire::row_of(Form::ImgImage), first, second),
        Form::TrkGoal => passes(wire::row_of(Form::TrkGoal), first, second),
        Form::TlmFlush => passes(wire::row_of(Form::TlmFlush), first, second),
        Form::FlushAuto => passes(wire::row_of(Form::FlushAuto), first, second),
        Form::Open => passes(wire::row_of(Form::Open), first, second),
        Form::Close => passes(wire::row_of(Form::Close), first, second),
        Form::Run => run_holds(first, second, tally, m),
        Form::Wait => passes(wire::row_of(Form::Wait), first, second),
        Form::Stop => passes(wire::row_of(Form::Stop), first, second),
        Form::Clear => passes(wire::row_of(Form::Clear), first, second),
    }
}

/// An entry of macro m is a flag-1 command that passes 8 to 10 and, for a RUN, 17 and 18.
fn entry_holds(entry: Entry, tally: &Tally, m: u8) -> bool
    ensures { result ≡ entry_holds tally.now.closed m (command_in entry) }
{
    // The flag by itself and first: as a guard of the arm below, seconds were seen to take a fifth longer.
    if entry.head % 2 == 0 {
        return false;
    }
    match found_in(entry.head) {
        Some((form, _)) => form_holds(form, entry.first, entry.second, tally, m),
        None => false,
    }
}

/// Do all entries of macro m hold, which start here and are so many?
// A loop: `(start..end).all(..)` was tried, and not proved.
fn entries_hold(words: &[u32], start: usize, size: usize, tally: &Tally, m: u8) -> bool
    requires { (length words.now ≡ 576) × (size ≤ 255) }
    ensures { result ≡ entries_by tally.now.closed m (between words.now start size) }
{
    let end = end_of(start, size);
    for i in start..end {
        if !entry_holds(entry_at(words, i), tally, m) {
            return false;
        }
    }
    true
}

/// A closed macro has an entry at least, runs 1 to LONGEST seconds, and has at most GROUP entries in each.
fn closed_fits(count: u8, span: Span) -> bool
    ensures { result ≡ (leb 1 count && leb 1 (length_of span) && leb (length_of span) 600 && leb span.most 64) }
{
    let length = seconds_of(span);
    1 <= count && 1 <= length && length <= LONGEST && span.most as usize <= GROUP
}

/// Does macro m hold, whose entries start here, by a tally that has the spans? One that is neither closed nor open is not judged.
fn macro_holds(words: &[u32], tally: &Tally, start: usize, size: usize, m: u8) -> bool
    requires { (length words.now ≡ 576) × (size ≤ 255) }
    ensures { result ≡ macro_by tally.now m (between words.now start size) }
{
    if tally.is_closed(m) {
        closed_fits(tally.count(m), tally.span(m)) && entries_hold(words, start, size, tally, m)
    } else {
        tally.opened != m || entries_hold(words, start, size, tally, m)
    }
}

/// A running macro is closed, with 1 to its length seconds left.
fn running_holds(tally: &Tally) -> bool
    ensures { result ≡ (eqb tally.now.running 255 || (get_or tally.now.closed tally.now.running false && leb 1 tally.now.left && leb tally.now.left (length_of (get_or tally.now.spans tally.now.running no_span)))) }
{
    tally.running == NONE
        || (tally.is_closed(tally.running)
            && 1 <= tally.left
            && tally.left <= seconds_of(tally.span(tally.running)))
}

/// The whole store, by a tally that has the spans, and its entries in use.
// A loop and no `all`: where a macro starts goes along, which a closure would have to change.
pub(crate) fn holds(words: &[u32], tally: &Tally, used: usize) -> bool
    requires words_len { length words.now ≡ 576 }
    requires spans_value { (tally.now.spans ≡ spans_to (store_of words.now tally.now) 8) × (used ≡ used_by tally.now) }
    ensures { result ≡ store_sound (store_of words.now tally.now) }
{
    if ENTRIES < used {
        return false;
    }
    let mut start = 0;
    for m in 0..MACROS as u8 {
        let size = tally.size(m);
        if !macro_holds(words, tally, start, size, m) {
            return false;
        }
        start += size;
    }
    running_holds(tally)
}
