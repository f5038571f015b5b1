//! The items of lists on a memory card: 00 makes the stored form of a raw list, 01 the raw list that a stored one says, each at the front of a lent
//! room, and both print whether the rest of the room is as it was.
use card::Refused;
use script::rooms::FILL;
use script::{Place, output, rooms};

/// 00, a room's length of two bytes, and a raw list: `stored CODE NUMBER PAR VALUE LOW HIGH` and the bytes of its stored form, and a line `rest`.
pub fn to_card(place: Place, s: &[u8], out: &mut [u8]) -> Place {
    move_list(
        place,
        s,
        out,
        b"stored",
        |list, room| card::to_card(list, room),
    )
}

/// 01, a room's length of two bytes, and a stored list: `raw CODE NUMBER PAR VALUE LOW HIGH` and the bytes of its raw list, and a line `rest`.
pub fn from_card(place: Place, s: &[u8], out: &mut [u8]) -> Place {
    move_list(
        place,
        s,
        out,
        b"raw",
        |list, room| card::from_card(list, room),
    )
}

// Either of them: the word that its line begins with, and how the list is moved. (Both hand over a closure: a function of another crate is not passed by its
// name.)
fn move_list<F: FnOnce(&[u8], &mut [u8]) -> Result<usize, Refused>>(
    place: Place,
    s: &[u8],
    out: &mut [u8],
    word: &[u8],
    moving: F,
) -> Place
    requires { F.IsAlwaysCallable moving }
{
    let length = script::take(s, place.at, 2);
    let bytes = script::take_long(s, length.to);
    if !bytes.whole {
        return place.bad(out);
    }
    let mut room = [FILL; rooms::LARGEST];
    let length = rooms::capped(words::half_at(s, length.from), rooms::LARGEST);
    let room = &mut room[..length];
    let moved = moving(script::bytes(s, bytes), room);
    let used = output::text(out, place.used, word);
    let told = wire::told_of(&moved);
    let number = card::number_of(&moved);
    let used = tellings::written(out, used, told, number, room, moved.unwrap_or(0));
    place.answered(bytes.to, used)
}
