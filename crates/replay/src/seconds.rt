//! The items in which time passes: 00 a second, 08 many of them.
use super::items::State;
use bench::Bench;
use script::output;

/// Some seconds passed: the bench afterwards, and how many entries they handed over in all.
#[derive(Clone, Copy)]
pub struct Waited {
    pub bench: Bench,
    pub entries: u32,
}

/// 00: `second CODE N`, and a line `handed CODE NAME ARGS` for each of the N entries.
pub fn second(state: &mut State, out: &mut [u8]) {
    let place = state.place;
    let used = match state.bench.second() {
        Ok(passed) => {
            state.bench = passed.bench;
            answers::second(out, place.used, &passed.group, &passed.codes)
        }
        Err(refused) => answers::no_second(out, place.used, refused),
    };
    state.place = place.answered(place.at, used);
}

fn wait(bench: Bench, seconds: u16) -> Waited {
    let mut bench = bench;
    let mut entries: u32 = 0;
    for passed in 0..seconds {
        // A bench that is not sound stays as it is, and hands nothing over.
        let Ok(step) = bench.second() else {
            break;
        };
        bench = step.bench;
        entries += store::group_size(step.group.count) as u32;
    }
    Waited { bench, entries }
}

fn passed_line(out: &mut [u8], used: usize, entries: u32) -> usize {
    let used = output::text(out, used, b"passed");
    let used = output::number(out, used, u64::from(entries));
    output::end(out, used)
}

/// 08, how many seconds in two bytes: `passed N`, N being the entries that they handed over in all.
pub fn pass(state: &mut State, s: &[u8], out: &mut [u8]) {
    let place = state.place;
    let seconds = script::take(s, place.at, 2);
    if !seconds.whole {
        state.place = place.bad(out);
        return;
    }
    let waited = wait(state.bench, words::half_at(s, seconds.from));
    state.bench = waited.bench;
    let used = passed_line(out, place.used, waited.entries);
    state.place = place.answered(seconds.to, used);
}
