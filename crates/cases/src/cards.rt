//! Lists on a memory card: `save` makes the stored form of a raw list, and `load` the raw list of a stored one. The size of the room stands in front of the
//! list. What was written is moved back too, into a room that is as long as the list, and has to be that list again.
use super::{lines, rooms, say, texts};
use card::Refused;

// The largest room, some bytes more than any list needs; a line that asks for more gets this one.
const ROOM: usize = walk::LONGEST + 8;

// Where the list begins in a line.
const LIST: usize = 2;

// What came of it: the code with what was wrong with the number, the number of the command, the bytes that were written, and what is behind them in the room.
fn answer(moved: Result<usize, Refused>, room: &[u8]) {
    let size = moved.unwrap_or(0);
    say::told(wire::told_of(&moved));
    say::field(b" number ", u64::from(card::number_of(&moved)));
    if 0 < size {
        say::hex(texts::wrote(room, size));
    }
    rooms::rest(room, size);
}

// Moves the list of a line there and, where that was done, what was written back: of an empty list no byte comes back, and neither does of a refusal.
// (Closures, as a function of another crate is not passed by its name.)
fn moved<T, B>(s: &[u8], there: T, back: B)
where
    T: FnOnce(&[u8], &mut [u8]) -> Result<usize, Refused>,
    B: FnOnce(&[u8], &mut [u8]) -> Result<usize, Refused> + Drop,
    requires there_callable { T.IsAlwaysCallable there }
    requires back_callable { B.IsAlwaysCallable back }
{
    let mut room = [rooms::FILL; ROOM];
    let mut again = [rooms::FILL; ROOM];
    let list = lines::rest(s, LIST);
    let moved = there(list, rooms::lent(&mut room, words::half_at(s, 0)));
    answer(moved, &room);
    if let Ok(size) = moved {
        let returned = back(
            lines::part(&room, 0, size),
            rooms::front(&mut again, list.len()),
        );
        if returned.is_ok_and(|size| lines::part(&again, 0, size) == list) {
            say::text(b"; back the same");
        } else {
            say::text(b"; back another");
        }
    }
}

/// `save`: a raw list.
pub fn save(s: &[u8]) {
    moved(
        s,
        |list, room| card::to_card(list, room),
        |stored, room| card::from_card(stored, room),
    );
}

/// `load`: a stored list.
pub fn load(s: &[u8]) {
    moved(
        s,
        |stored, room| card::from_card(stored, room),
        |list, room| card::to_card(list, room),
    );
}
