//! Where a program stands in its script.
ghost use Rattle.std.specs.Prelude.{◌≡◌, false};
ghost use Rattle.script.specs.Places.{start_place, goes_on, place_after};

use super::output;

/// The place of the next item, how much of the output's buffer is used, and whether every item was good so far.
#[derive(Clone, Copy, Debug, PartialEq, Eq)]
pub struct Place {
    pub at: usize,
    pub used: usize,
    pub good: bool,
}

impl Place {
    /// Before the first item, with nothing in the buffer.
    pub fn start() -> Place
        ensures { result ≡ start_place }
    {
        Place {
            at: 0,
            used: 0,
            good: true,
        }
    }

    /// Is there another item to take?
    pub fn goes_on(self, s: &[u8]) -> bool
        ensures { result ≡ goes_on self s.now }
    {
        self.good && self.at < s.len()
    }

    /// After an item that ended here, with its answer in the buffer.
    pub fn answered(self, at: usize, used: usize) -> Place
        ensures { result ≡ place_after self at used }
    {
        Place { at, used, ..self }
    }

    /// After a bad item: one that is cut off, or that the program does not have. It is the last one.
    pub fn bad(self, out: &mut [u8]) -> Place
        ensures good_value { result.good ≡ false }
        ensures at_value { result.at ≡ self.at }
    {
        let used = output::text(out, self.used, b"bad script\n");
        Place {
            used,
            good: false,
            ..self
        }
    }
}
