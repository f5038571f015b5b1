//! How a list of commands is walked: where each command begins, and the bytes of a reported command as a part of its sender's list.
//! Rules: "Two lists, one report", "Bytes shown".
#![tactic(auto)]

ghost use Rattle.std.specs.Prelude.{◌≡◌};
ghost use Rattle.std.specs.Iterator.{YieldsFirstRef, item_count};
ghost use Rattle.walk.specs.Walk.{rests};
ghost use Rattle.walk.specs.Shown.{start_of, bytes_at, command_of, shown_of, asked_of, offset_to, offset_of, slice_of, Placed};

/// The longest list that is taken, in bytes.
pub const LONGEST: usize = 4096;

/// The sender whose list runs first. (A byte and no enum: it is a record's first, and `shown` is asked of any.)
pub const KIT: u8 = 1;

/// The other sender.
pub const PUPIL: u8 = 2;

/// The commands of a list in turn, each as all that is left of the list from it on. A command that codes 1, 2 or 3 refuse ends the list.
#[derive(Clone, Copy)]
pub struct Commands<'a> {
    pub left: &'a [u8],
}

impl<'a> Commands<'a> {
    /// All commands of a list.
    pub fn new(list: &'a [u8]) -> Commands<'a>
        ensures { result.left ≡ list.entry }
    {
        Commands { left: list }
    }
}

impl<'a> Iterator for Commands<'a> {
    type Item = &'a [u8];

    ghost next_gives = { YieldsFirstRef (λ s. rests s.left.now) };

    ghost remaining = { item_count (λ s. rests s.left.now) };

    fn next(&mut self) -> Option<&'a [u8]> {
        let here = self.left;
        if here.is_empty() {
            return None;
        }
        self.left = &here[wire::span(here)..];
        Some(here)
    }
}

// Where command `number`, from 1, begins; the list's length where it has no such command, and no `Option`, since from there on there are no bytes.
fn start_of(s: &[u8], number: u32) -> usize
    ensures { result ≡ start_of s.now number }
{
    if number == 0 {
        return s.len();
    }
    match Commands::new(s).nth(number as usize - 1) {
        Some(rest) => s.len() - rest.len(),
        None => s.len(),
    }
}

// The number to look up: 0, which no command has, where either list is too long or the sender is neither of the two. No `Option`, since a caller may ask for
// command 0 too, and gets the same.
fn number_asked(kit: &[u8], pupil: &[u8], sender: u8, number: u32) -> u32
    ensures { result ≡ asked_of kit.now pupil.now sender number }
{
    match sender {
        KIT | PUPIL if kit.len() <= LONGEST && pupil.len() <= LONGEST => number,
        _ => 0,
    }
}

/// The bytes of the command that begins at a place; the empty part at the list's start where the list has no such place.
pub fn bytes_at<'a>(s: &'a [u8], at: usize) -> &'a [u8]
    ensures result_value { result.now ≡ bytes_at s.now at }
    ensures placed { Placed s.entry result (offset_to (bytes_at s.now at) at) }
{
    if at < s.len() {
        let end = at + wire::span(&s[at..]);
        &s[at..end]
    } else {
        &s[..0]
    }
}

// The bytes of a list's command; the empty part at the list's start where it has no such command.
fn part_of<'a>(s: &'a [u8], number: u32) -> &'a [u8]
    ensures result_value { result.now ≡ command_of s.now number }
    ensures placed { Placed s.entry result (offset_to (command_of s.now number) (start_of s.now number)) }
{
    bytes_at(s, start_of(s, number))
}

/// The bytes of a reported command, by its sender and its number in that sender's list: a part of that list, empty where there is no such record or either
/// list has more than `LONGEST` bytes.
pub fn shown<'a>(kit: &'a [u8], pupil: &'a [u8], sender: u8, number: u32) -> &'a [u8]
    ensures result_value { result.now ≡ shown_of kit.now pupil.now sender number }
    ensures placed { Placed (slice_of kit.entry pupil.entry sender) result (offset_of kit.now pupil.now sender number) }
{
    let asked = number_asked(kit, pupil, sender, number);
    if sender == PUPIL {
        part_of(pupil, asked)
    } else {
        part_of(kit, asked)
    }
}
