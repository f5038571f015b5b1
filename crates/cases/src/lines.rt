//! A line of a case, `VERB WHAT IS TRIED: BYTES`: its parts.

/// Where this byte first stands; the end where it does not.
pub fn find(s: &[u8], b: u8) -> usize {
    s.iter().position(|&c| c == b).unwrap_or(s.len())
}

/// The part from one place to another; empty where there is no such part.
pub fn part(s: &[u8], from: usize, to: usize) -> &[u8] {
    s.get(from..to).unwrap_or(&[])
}

/// All that stands from a place on.
pub fn rest(s: &[u8], from: usize) -> &[u8] {
    part(s, from, s.len())
}

/// The verb, which stands before the first blank; none where there is no blank.
pub fn verb(line: &[u8]) -> &[u8] {
    match line.iter().position(|&c| c == b' ') {
        Some(end) => part(line, 0, end),
        None => &[],
    }
}

/// What stands before the colon.
pub fn label(line: &[u8]) -> &[u8] {
    part(line, 0, find(line, b':'))
}
