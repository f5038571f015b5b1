//! The group of one second of a macro, collected without writing the macro out: the walk over its entries follows a RUN where it must and passes it
//! whole where its seconds end before the one that is looked for. The macro number falls at each call, and the pool's words are only lent.
//! Rules: "One second", "The written-out list".
ghost use Rattle.std.specs.Prelude.{min, ◌≡◌, [], true, false, length};
ghost use Rattle.store.specs.Words.{command_for};
ghost use Rattle.store.specs.WrittenOut.{items_of, flat};
ghost use Rattle.store.specs.Effects.{group_of, kind_at, group_due};
ghost use Rattle.store.specs.PoolSteps.{command_in};
ghost use Rattle.store.specs.GroupSteps.{words_in, cursor_of, collected, over, turn_in, Waits, Walked, Due};
ghost use Rattle.store.specs.GroupSteps as steps;
ghost use Rattle.store.specs.TallySteps.{store_of};

use super::pool::{Entry, WORDS, end_of, entry_at, found_in};
use super::spans::{Beat, Span, beat_in, seconds_of};
use super::tally::Tally;
use super::{GROUP, TOO_LONG};
use wire::{Form, Kind};

/// What a second handed over: the words of its entries in order, as the pool has them, and how many entries they are, up to 64. Zeros stand behind them.
// Open fields, the count beside the words: callers lend the words alone (`handed_at`), and a count above 64 is answered too (`group_size`).
#[derive(Clone, Copy)]
pub struct Group {
    pub words: [u32; 192],
    pub count: u8,
}

/// What the walk does at an entry: it takes it, waits, or follows it into a macro.
#[derive(Clone, Copy)]
enum Turn {
    Takes,
    Waits(u16),
    Follows(u8),
}

/// Where the walk stands: the seconds still to pass, the entries taken so far, and whether the second looked for is closed.
// `done` beside the numbers and no Option: a walk that is done is asked for its count (`cursor_of`).
#[derive(Clone, Copy)]
struct Spot {
    left: u16,
    count: u8,
    done: bool,
}

impl Group {
    /// A group without entries.
    #[tactic(auto, unfolding(crate::specs::Effects::group_words))]
    pub fn none() -> Group
        ensures { result ≡ group_of [] }
    {
        Group {
            words: [0; 192],
            count: 0,
        }
    }
}

/// How many entries a group of this count has: no more than there are places.
pub fn group_size(count: u8) -> usize
    ensures { result ≡ min 64 count }
{
    (count as usize).min(GROUP)
}

/// The kind that a form and two arguments say; out of range they are no command.
fn kind_as(form: Form, first: u32, second: u32) -> Kind
    ensures { result ≡ (command_for (Some (form, 0)) true first second).kind }
{
    if wire::first_bad(wire::row_of(form), first, second).is_some() {
        return Kind::ImgPwr(0);
    }
    wire::kind_of(form, first, second)
}

/// The same; in each arm the form is a constant.
fn kind_by(form: Form, first: u32, second: u32) -> Kind
    ensures { result ≡ (command_for (Some (form, 0)) true first second).kind }
{
    match form {
        Form::ImgPwr => kind_as(Form::ImgPwr, first, second),
        Form::ImgRegion => kind_as(Form::ImgRegion, first, second),
        Form::ImgTrack => kind_as(Form::ImgTrack, first, second),
        Form::TrkAlg => kind_as(Form::TrkAlg, first, second),
        Form::TrkLoop => kind_as(Form::TrkLoop, first, second),
        Form::ImgImage => kind_as(Form::ImgImage, first, second),
        Form::TrkGoal => kind_as(Form::TrkGoal, first, second),
        Form::TlmFlush => kind_as(Form::TlmFlush, first, second),
        Form::FlushAuto => kind_as(Form::FlushAuto, first, second),
        Form::Open => kind_as(Form::Open, first, second),
        Form::Close => kind_as(Form::Close, first, second),
        Form::Run => kind_as(Form::Run, first, second),
        Form::Wait => kind_as(Form::Wait, first, second),
        Form::Stop => kind_as(Form::Stop, first, second),
        Form::Clear => kind_as(Form::Clear, first, second),
    }
}

/// The kind that an entry's words say.
fn kind_in(entry: Entry) -> Kind
    ensures { result ≡ (command_in entry).kind }
{
    match found_in(entry.head) {
        Some((form, _)) => kind_by(form, entry.first, entry.second),
        None => Kind::ImgPwr(0),
    }
}

/// The kind of entry i of a group's words; power off past the last place.
fn kind_at(words: &[u32], i: usize) -> Kind
    requires { length words.now ≡ 192 }
    ensures { result ≡ kind_at words.now i }
{
    if i < GROUP {
        kind_in(entry_at(words, i))
    } else {
        Kind::ImgPwr(0)
    }
}

/// The kind of entry i, from 0, of a group's words; there are GROUP places, and past them it is power off.
pub fn handed_at(words: &[u32; 192], i: usize) -> Kind
    ensures { result ≡ kind_at words.now i }
{
    kind_at(words, i)
}

/// Is a span told whole, and over before so many seconds have passed?
fn is_over(span: Span, left: u16) -> bool
    ensures { result ≡ over span left }
{
    if span.last == 0 {
        span.waits < TOO_LONG && span.waits <= left
    } else {
        span.waits < TOO_LONG && span.waits < left
    }
}

/// What the walk does at a RUN in macro m: it follows it, unless its seconds are over before the one looked for, or it adds nothing.
fn run_turn(target: u8, tally: &Tally, m: u8, left: u16) -> Turn
    ensures { result ≡ turn_in tally.now.closed tally.now.spans m left (Beat.Run target) }
{
    if !tally.leads(m, target) {
        return Turn::Waits(0);
    }
    let span = tally.span(target);
    if is_over(span, left) {
        Turn::Waits(span.waits)
    } else {
        Turn::Follows(target)
    }
}

/// What the walk does at an entry of macro m.
fn turn_in(beat: Beat, tally: &Tally, m: u8, left: u16) -> Turn
    ensures { result ≡ turn_in tally.now.closed tally.now.spans m left beat }
{
    match beat {
        Beat::Entry => Turn::Takes,
        Beat::Wait(seconds) => Turn::Waits(seconds),
        Beat::Run(target) => run_turn(target, tally, m, left),
    }
}

/// An entry: it is taken in its second, as long as there is a place.
fn taken(spot: Spot, group: &mut [u32], entry: Entry) -> Spot
    requires { (length group.old ≡ 192) × (spot.done ≡ false) }
    ensures { cursor_of result group.new ≡ steps.taken (cursor_of spot group.old) (words_in entry) }
{
    if 0 < spot.left {
        return spot;
    }
    let count = spot.count as usize;
    if GROUP <= count {
        return Spot { done: true, ..spot };
    }
    let at = count * WORDS;
    group[at] = entry.head;
    group[at + 1] = entry.first;
    group[at + 2] = entry.second;
    Spot {
        count: spot.count + 1,
        ..spot
    }
}

/// A WAIT: its seconds pass, or it closes the second looked for.
fn waited(spot: Spot, seconds: u16) -> Spot
    requires { spot.done ≡ false }
    ensures { Waits spot seconds result }
{
    if seconds <= spot.left {
        let left = spot.left - seconds;
        return Spot { left, ..spot };
    }
    Spot { done: true, ..spot }
}

/// Walks over macro m from a spot on, by a tally that has the spans, and puts the entries that belong to the second looked for into the group.
// By recursion over the macro numbers, a rule of the project; in a loop, since a closure is no place for that call, which changes spot and group.
fn collect(words: &[u32], tally: &Tally, m: u8, spot: Spot, group: &mut [u32]) -> Spot
    requires words_len { length words.now ≡ 576 }
    requires walked { Walked (store_of words.now tally.now) m tally.now.spans group.old }
    ensures { cursor_of result group.new ≡ collected (cursor_of spot group.old) (items_of (flat (store_of words.now tally.now) m)) }
{
    let start = tally.start(m);
    let end = end_of(start, tally.size(m));
    let mut spot = spot;
    for i in start..end {
        if spot.done {
            return spot;
        }
        let entry = entry_at(words, i);
        match turn_in(beat_in(entry), tally, m, spot.left) {
            Turn::Takes => {
                spot = taken(spot, group, entry);
            }
            Turn::Waits(seconds) => {
                spot = waited(spot, seconds);
            }
            Turn::Follows(target) => {
                spot = collect(words, tally, target, spot, group);
            }
        }
    }
    spot
}

/// The group that is due in macro m when so many of its seconds are left, by a tally that has the spans.
pub(crate) fn group_due(words: &[u32], tally: &Tally, m: u8, left: u16) -> Group
    requires words_len { length words.now ≡ 576 }
    requires due { Due (store_of words.now tally.now) m tally.now.spans }
    ensures { result ≡ group_of (group_due (store_of words.now tally.now) m left) }
{
    let length = seconds_of(tally.span(m));
    let mut group: [u32; 192] = [0; 192];
    let spot = Spot {
        left: length.saturating_sub(left),
        count: 0,
        done: false,
    };
    let spot = collect(words, tally, m, spot, &mut group);
    Group {
        words: group,
        count: spot.count,
    }
}
