//! A line or a text taken apart at a mark.
ghost use Rattle.std.specs.Prelude.{◌+◌, ◌≡◌, drop};
ghost use Rattle.std.specs.Iterator.{YieldsFirstRef, item_count};
ghost use Rattle.text.specs.Split.{lines_of};
ghost use Rattle.text.specs.Steps.{run_of, front_of};

/// What ends a line.
pub const LINE_FEED: u8 = b'\n';

/// What stands between the words of a line.
pub const SPACE: u8 = b' ';

/// How many bytes stand before the first mark.
pub fn run_of(s: &[u8], mark: u8) -> usize
    ensures { result ≡ run_of mark s.now }
{
    for (i, &b) in s.iter().enumerate() {
        if b == mark {
            return i;
        }
    }
    s.len()
}

/// The part before the first mark.
pub fn front<'a>(s: &'a [u8], mark: u8) -> &'a [u8]
    ensures { result.now ≡ front_of mark s.now }
{
    &s[..run_of(s, mark)]
}

/// The part behind a mark at this place; nothing where the text ends before it.
pub fn behind<'a>(s: &'a [u8], at: usize) -> &'a [u8]
    ensures { result.now ≡ drop (at + 1) s.now }
{
    if at < s.len() {
        return &s[at + 1..];
    }
    &s[s.len()..]
}

/// The lines of a text in turn, each without its line feed.
#[derive(Clone, Copy)]
pub struct Lines<'a> {
    left: &'a [u8],
}

impl<'a> Lines<'a> {
    /// All lines of a text.
    pub fn new(text: &'a [u8]) -> Lines<'a>
        ensures { result.left ≡ text.entry }
    {
        Lines { left: text }
    }
}

impl<'a> Iterator for Lines<'a> {
    type Item = &'a [u8];

    ghost next_gives = { YieldsFirstRef (λ s. lines_of s.left.now) };

    ghost remaining = { item_count (λ s. lines_of s.left.now) };

    fn next(&mut self) -> Option<&'a [u8]> {
        let here = self.left;
        if here.is_empty() {
            return None;
        }
        let line = front(here, LINE_FEED);
        self.left = behind(here, line.len());
        Some(line)
    }
}
