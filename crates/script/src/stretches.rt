//! Stretches of the script. One that the script does not have whole ends at the script's end, so whatever takes a byte after it is not whole
//! either: an item looks at its last stretch alone.
ghost use Rattle.std.specs.Prelude.{◌≡◌};
ghost use Rattle.script.specs.Stretches.{no_stretch, stretch_of, short_of, long_of, bytes_of, front_of};

/// Where a stretch begins and ends, and whether the script has it whole.
// `whole` stands beside the ends, and is no `Option`: the next stretch begins where one ends that was cut off, so that an item tests its last alone.
#[derive(Clone, Copy, Debug, PartialEq, Eq)]
pub struct Stretch {
    pub from: usize,
    pub to: usize,
    pub whole: bool,
}

/// One that the script does not have.
pub fn none(s: &[u8]) -> Stretch
    ensures { result ≡ no_stretch s.now }
{
    Stretch {
        from: s.len(),
        to: s.len(),
        whole: false,
    }
}

/// So many bytes from a place on.
pub fn take(s: &[u8], from: usize, count: usize) -> Stretch
    ensures { result ≡ stretch_of s.now from count }
{
    if s.len() < from || s.len() - from < count {
        return none(s);
    }
    Stretch {
        from,
        to: from + count,
        whole: true,
    }
}

/// Bytes whose number stands before them in one byte.
pub fn take_short(s: &[u8], at: usize) -> Stretch
    ensures { result ≡ short_of s.now at }
{
    let head = take(s, at, 1);
    if head.whole {
        take(s, head.to, words::byte_at(s, head.from) as usize)
    } else {
        head
    }
}

/// Bytes whose number stands before them in two bytes.
pub fn take_long(s: &[u8], at: usize) -> Stretch
    ensures { result ≡ long_of s.now at }
{
    let head = take(s, at, 2);
    if head.whole {
        take(s, head.to, words::half_at(s, head.from) as usize)
    } else {
        head
    }
}

/// The bytes of a stretch.
pub fn bytes<'a>(s: &'a [u8], part: Stretch) -> &'a [u8]
    ensures { result.now ≡ bytes_of s.now part }
{
    s.get(part.from..part.to).unwrap_or(&s[..0])
}

/// The first bytes of a part; none where it has fewer.
pub fn front<'a>(s: &'a [u8], count: usize) -> &'a [u8]
    ensures { result.now ≡ front_of s.now count }
{
    bytes(s, take(s, 0, count))
}
