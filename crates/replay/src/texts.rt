//! The items with text: 0a assembles a raw list of one, 0b lists a raw list as one, 0c runs the kit's raw list and a typed one, 0d shows a line.
use super::items::{State, two_lists};
use super::reports;
use bench::{Ran, TypedRefusal};
use script::rooms::FILL;
use script::{Place, output, rooms};
use text::Refusal;

// The line of a translation behind its first word, ` CODE NUMBER PAR VALUE LOW HIGH` and the bytes written, and the rest of the room.
fn translated_lines(
    out: &mut [u8],
    used: usize,
    translated: Result<usize, Refusal>,
    room: &[u8],
) -> usize {
    let found = text::finding_of(&translated);
    tellings::written(
        out,
        used,
        found.told,
        found.number,
        room,
        translated.unwrap_or(0),
    )
}

// What 0a and 0b have in common: a room's length of two bytes, and the bytes that are translated. (Both hand over a closure: a function of another
// crate is not passed by its name.)
fn translated<T: Fn(&[u8], &mut [u8]) -> Result<usize, Refusal>>(
    place: Place,
    s: &[u8],
    out: &mut [u8],
    word: &[u8],
    translate: T,
) -> Place
    requires { T.IsAlwaysCallable translate }
{
    let length = script::take(s, place.at, 2);
    let bytes = script::take_long(s, length.to);
    if !bytes.whole {
        return place.bad(out);
    }
    let mut room = [FILL; rooms::LARGEST];
    let length = rooms::capped(words::half_at(s, length.from), rooms::LARGEST);
    let room = &mut room[..length];
    let answer = translate(script::bytes(s, bytes), room);
    let used = output::text(out, place.used, word);
    let used = translated_lines(out, used, answer, room);
    place.answered(bytes.to, used)
}

/// 0a, a room's length of two bytes, and a text: `assembled CODE LINE PAR VALUE LOW HIGH` and the bytes of its list, and a line `rest`.
pub fn assemble(place: Place, s: &[u8], out: &mut [u8]) -> Place {
    translated(
        place,
        s,
        out,
        b"assembled",
        |typed, room| text::assemble(typed, room),
    )
}

/// 0b, a room's length of two bytes, and a raw list: `listed CODE NUMBER PAR VALUE LOW HIGH` and the bytes of its text, and a line `rest`.
pub fn list(place: Place, s: &[u8], out: &mut [u8]) -> Place {
    translated(
        place,
        s,
        out,
        b"listed",
        |raw, room| text::list_text(raw, room),
    )
}

fn typed_lines(out: &mut [u8], used: usize, ran: &Result<Ran, TypedRefusal>, room: &[u8]) -> usize {
    let found = bench::finding_of(ran);
    let used = output::text(out, used, b"typed");
    let used = tellings::numbered(out, used, found.told, found.number);
    reports::lines(out, used, ran, room)
}

/// 0c, a room's length of two bytes, the kit's raw list and a text: `typed CODE LINE PAR VALUE LOW HIGH KIT PUPIL`, then the records and the rest as
/// 03 has them.
pub fn run(state: &mut State, s: &[u8], out: &mut [u8]) {
    let place = state.place;
    let Some(lists) = two_lists(s, place.at) else {
        state.place = place.bad(out);
        return;
    };
    let mut room = [FILL; rooms::LARGEST];
    let length = rooms::capped(lists.length, rooms::LARGEST);
    let room = &mut room[..length];
    let ran = state.bench.run_typed(lists.kit, lists.pupil, room);
    let used = typed_lines(out, place.used, &ran, room);
    if let Ok(ran) = ran {
        state.bench = ran.bench;
    }
    state.place = place.answered(lists.end, used);
}

/// 0d, a text and a number of four bytes: `line` and the bytes of that line, nothing behind it where there are none.
pub fn line(place: Place, s: &[u8], out: &mut [u8]) -> Place {
    let typed = script::take_long(s, place.at);
    let number = script::take(s, typed.to, 4);
    if !number.whole {
        return place.bad(out);
    }
    let bytes = text::line_shown(script::bytes(s, typed), words::word_at(s, number.from));
    let used = output::bytes_line(out, place.used, b"line", bytes);
    place.answered(number.to, used)
}
