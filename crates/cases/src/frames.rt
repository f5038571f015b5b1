//! Status frames: a size, which frame (0 that of a fresh bench, 1 a busy one), a place in it, and the bytes that are put there.
//! `frame` reads so many bytes of it, `put` writes its fields into a room of that size, `values` reads it with each value at the place.
use super::{lines, rooms, say};
use frame::{Frame, Pace};
use words::Code;

// Fresh: all numbers zero, both intervals 1, nothing running, open or closed.
const FRESH: [u32; 8] = [1, 1, 0, 0, 0, 0, 0x0000ffff, 0];

// Busy: region 1023, 0; goal 447fffff, 80000000; power and loop on, algorithm 2; macro 3 runs, 600 s left; 5 is open; 0 to 3 and 6 are closed.
const BUSY: [u32; 8] = [
    0x00050002, 0xffff0007, 0x00030009, 0x03ff0000, 0x447fffff, 0x80000000, 0x25fe0305, 0x02584f05,
];

// The frame that a line says, behind the size, at the front of a room that has its 32 bytes.
fn changed(room: &mut [u8], s: &[u8]) {
    let frame = if words::byte_at(s, 1) == 0 {
        FRESH
    } else {
        BUSY
    };
    let _ = words::put_words(room, &frame);
    rooms::paste(room, words::byte_at(s, 2) as usize, lines::rest(s, 3));
}

// A taken frame is written again, and compared byte by byte.
fn again(f: Frame, s: &[u8]) {
    let mut room = [rooms::FILL; frame::SIZE];
    if frame::write_frame(f, &mut room).is_ok() && room.as_slice() == s {
        say::text(b"0, written again the same");
    } else {
        say::text(b"0, written again otherwise");
    }
}

// The code of reading these bytes as a frame.
fn answer(s: &[u8]) {
    say::text(b"code ");
    match frame::read_frame(s) {
        Ok(f) => again(f, s),
        Err(refusal) => say::number(u64::from(refusal.code())),
    }
}

/// `frame`: reads so many bytes of the line's frame.
pub fn read(s: &[u8]) {
    let mut room = [0u8; 64];
    changed(&mut room, s);
    answer(lines::part(&room, 0, words::byte_at(s, 0) as usize));
}

// Whether the frame with this byte at this place is taken; the value is printed where it is.
fn taken(s: &[u8], value: u8) -> bool {
    let mut room = [0u8; frame::SIZE];
    changed(&mut room, s);
    rooms::set(&mut room, words::byte_at(s, 2) as usize, value);
    let taken = frame::read_frame(&room).is_ok();
    if taken {
        say::number(u64::from(value));
        say::text(b" ");
    }
    taken
}

/// `values`: the byte at a place at each of its 256 values: those that are taken, and how many they are.
pub fn values(s: &[u8]) {
    let count = (0..=u8::MAX).filter(|&value| taken(s, value)).count();
    say::field(b"are taken: ", count as u64);
}

// The time, interval and count that stand at these places.
fn pace(s: &[u8], time: usize, interval: usize, count: usize) -> Pace {
    Pace {
        time: words::half_at(s, time),
        interval: words::half_at(s, interval),
        count: words::half_at(s, count),
    }
}

// The fields of these bytes, whatever the rules say; the algorithm is all that stands above bit 3 of byte 24.
fn fields(s: &[u8]) -> Frame {
    let modes = words::byte_at(s, 24);
    Frame {
        image: pace(s, 0, 2, 8),
        track: pace(s, 4, 6, 10),
        x: words::half_at(s, 12),
        y: words::half_at(s, 14),
        xgoal: words::word_at(s, 16),
        ygoal: words::word_at(s, 20),
        power: modes % 2 == 1,
        auto: modes / 2 % 2 == 1,
        looping: modes / 4 % 2 == 1,
        algorithm: modes / 16,
        flushes: words::byte_at(s, 25),
        running: words::byte_at(s, 26),
        opened: words::byte_at(s, 27),
        left: words::half_at(s, 28),
        closed: words::byte_at(s, 30),
    }
}

/// `put`: writes the fields of the line's frame into a room.
pub fn write(s: &[u8]) {
    let mut room = [0u8; frame::SIZE];
    changed(&mut room, s);
    rooms::put_frame(fields(&room), words::byte_at(s, 0));
}
