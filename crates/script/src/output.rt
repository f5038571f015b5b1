//! The transcript: text is collected in a lent buffer, which is written out when it is full. Each function takes the buffer and how much of it is
//! used, and answers how much is used afterwards. `number` and `hex` put a blank before what they print.
use super::{bytes, take};

/// Writes out what the buffer holds, and begins it anew.
pub fn flush(out: &[u8], used: usize) -> usize {
    if used <= out.len() {
        io::write_all(1, &out[..used]);
    }
    0
}

// One byte; a buffer that is full is written out first.
fn byte(out: &mut [u8], used: usize, b: u8) -> usize {
    if used < out.len() {
        out[used] = b;
        return used + 1;
    }
    flush(out, used);
    if 0 < out.len() {
        out[0] = b;
    }
    1
}

/// Text as it is.
pub fn text(out: &mut [u8], used: usize, s: &[u8]) -> usize {
    let mut next = used;
    for &b in s {
        next = byte(out, next, b);
    }
    next
}

/// A word: what stands before the first blank.
pub fn word(out: &mut [u8], used: usize, s: &[u8]) -> usize {
    let mut next = byte(out, used, b' ');
    for &b in s {
        if b == b' ' {
            break;
        }
        next = byte(out, next, b);
    }
    next
}

/// A number in decimal.
pub fn number(out: &mut [u8], used: usize, n: u64) -> usize {
    let mut digits = [0u8; 20];
    let count = io::decimal(n, &mut digits);
    let used = byte(out, used, b' ');
    text(out, used, &digits[..count])
}

// A byte as two hex digits.
fn pair(out: &mut [u8], used: usize, b: u8) -> usize {
    let mut digits = [0u8; 16];
    let count = io::hex(b as u64, 2, &mut digits);
    text(out, used, &digits[..count])
}

fn pairs(out: &mut [u8], used: usize, s: &[u8]) -> usize {
    let mut next = used;
    for &b in s {
        next = pair(out, next, b);
    }
    next
}

/// Bytes in hex; nothing, not even the blank, where there are none.
pub fn hex(out: &mut [u8], used: usize, s: &[u8]) -> usize {
    if s.is_empty() {
        return used;
    }
    let used = byte(out, used, b' ');
    pairs(out, used, s)
}

/// The end of a line.
pub fn end(out: &mut [u8], used: usize) -> usize {
    byte(out, used, b'\n')
}

/// A line of a word and bytes in hex.
pub fn bytes_line(out: &mut [u8], used: usize, word: &[u8], s: &[u8]) -> usize {
    let used = text(out, used, word);
    let used = hex(out, used, s);
    end(out, used)
}

/// Such a line for each of the first so many pieces of one size, as far as there are whole ones.
pub fn piece_lines(
    out: &mut [u8],
    used: usize,
    word: &[u8],
    s: &[u8],
    size: usize,
    count: usize,
) -> usize {
    let mut next = used;
    let mut from: usize = 0;
    for _ in 0..count {
        let piece = take(s, from, size);
        if !piece.whole {
            break;
        }
        next = bytes_line(out, next, word, bytes(s, piece));
        from = piece.to;
    }
    next
}
