//! Damaged lists: `rescue` keeps the commands that pass and says which stretches were skipped. The sizes of the room for the commands and of the one for the
//! stretches stand in front of the list. Kept bytes and stretches are put back in order, which must give the list; and what was kept is rescued once more,
//! which must give all of it back with nothing skipped.
use super::{lines, rooms, say};
use rescue::{Refusal, Rescued, STRETCH, TABLE};

// The largest rooms, some bytes more than any list needs; a line that asks for more gets these.
const ROOM: usize = walk::LONGEST + 8;

const STRETCHES: usize = TABLE + 8;

// Where the list begins in a line.
const LIST: usize = 4;

// Where the length begins in a stretch, behind its start.
const LENGTH: usize = 2;

// The most bytes, and the most bytes of stretches, that are printed; of more the last ones are.
const BYTES: usize = 256;

const PRINTED: usize = 16 * STRETCH;

// How far a list is put back: how many bytes it has, and how many of the kept ones are among them.
#[derive(Clone, Copy)]
struct Back {
    size: usize,
    kept: usize,
}

// The last bytes, so many at most, of those at the front of a room.
fn last(room: &[u8], size: usize, most: usize) -> &[u8] {
    lines::part(room, size.saturating_sub(most), size)
}

// Start and length of each stretch of a table.
fn stretches(table: &[u8]) {
    for stretch in table.chunks_exact(STRETCH) {
        say::field16(b" ", words::half_at(stretch, 0));
        say::field16(b"+", words::half_at(stretch, LENGTH));
    }
}

// What came of it: the code, how many bytes were kept and how many stretches skipped; the bytes, and what is behind them in their room; the same of the
// stretches.
fn answer(rescued: Result<Rescued, Refusal>, room: &[u8], table: &[u8]) {
    let code = words::code_of(&rescued);
    let done = rescued.unwrap_or(Rescued {
        kept: 0,
        stretches: 0,
    });
    let skipped = done.table();
    say::field8(b"code ", code);
    say::field(b", kept ", done.kept as u64);
    say::field(b", stretches ", done.stretches as u64);
    if 0 < done.kept {
        say::text(b", bytes ");
        say::hex(last(room, done.kept, BYTES));
    }
    rooms::rest(room, done.kept);
    if 0 < skipped {
        say::text(b", skipped");
        stretches(last(table, skipped, PRINTED));
    }
    rooms::rest(table, skipped);
}

// Sums and differences wrap where the answer that is tried makes no sense.
impl Back {
    // Puts kept bytes back up to a place of the list: those that come next.
    fn with_kept(self, list: &mut [u8], kept: &[u8], to: usize) -> Back {
        let end = self.kept.wrapping_add(to.wrapping_sub(self.size));
        rooms::paste(list, self.size, lines::part(kept, self.kept, end));
        Back {
            size: to,
            kept: end,
        }
    }

    // Puts the damaged list's own bytes of a stretch back.
    fn with_skipped(self, list: &mut [u8], damaged: &[u8], start: usize, length: usize) -> Back {
        let end = start.wrapping_add(length);
        rooms::paste(list, self.size, lines::part(damaged, start, end));
        Back {
            size: self.size.wrapping_add(length),
            ..self
        }
    }
}

// Puts all of a list back: before each stretch the kept bytes that come next, and then its own; behind the last one what is left of the kept bytes.
fn put_back(list: &mut [u8], damaged: &[u8], kept: &[u8], table: &[u8]) -> usize {
    let mut back = Back { size: 0, kept: 0 };
    for stretch in table.chunks_exact(STRETCH) {
        let start = words::half_at(stretch, 0) as usize;
        let length = words::half_at(stretch, LENGTH) as usize;
        back = back.with_kept(list, kept, start);
        back = back.with_skipped(list, damaged, start, length);
    }
    let left = kept.len().wrapping_sub(back.kept);
    back.with_kept(list, kept, back.size.wrapping_add(left))
        .size
}

// Are kept bytes and stretches together the list that they are of?
fn together(damaged: &[u8], kept: &[u8], table: &[u8]) {
    let mut list = [rooms::FILL; ROOM];
    let size = put_back(&mut list, damaged, kept, table);
    if lines::part(&list, 0, size) == damaged {
        say::text(b"; together the list");
    } else {
        say::text(b"; together another");
    }
}

// Is what was kept all kept again, with nothing skipped, so that no room for stretches is needed?
fn again(kept: &[u8]) {
    let mut room = [rooms::FILL; ROOM];
    let rescued = rescue::rescue(kept, &mut room, &mut []);
    if rescued.is_ok_and(|done| done.stretches == 0 && lines::part(&room, 0, done.kept) == kept) {
        say::text(b"; again the same");
    } else {
        say::text(b"; again another");
    }
}

/// `rescue`: a damaged list.
pub fn rescue_list(s: &[u8]) {
    let mut room = [rooms::FILL; ROOM];
    let mut table = [rooms::FILL; STRETCHES];
    let list = lines::rest(s, LIST);
    let rescued = rescue::rescue(
        list,
        rooms::lent(&mut room, words::half_at(s, 0)),
        rooms::lent(&mut table, words::half_at(s, 2)),
    );
    answer(rescued, &room, &table);
    if let Ok(done) = rescued {
        let kept = lines::part(&room, 0, done.kept);
        together(list, kept, lines::part(&table, 0, done.table()));
        again(kept);
    }
}
