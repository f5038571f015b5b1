//! Text that grows in a lent room.
ghost use Rattle.std.specs.Prelude.{◌≡◌, ◌≤◌, length};
ghost use Rattle.words.specs.Text.{decimal, stored_at, place_after};

use super::{put_at, put_decimal};

/// A room, and the place that comes next. What has too little room is left out, whole.
#[derive(Drop)]
pub struct Writer<'a> {
    /// Where the text is put.
    pub room: &'a mut [u8],
    /// The place, from the room's front, at which the next bytes begin.
    pub at: usize,
}

impl<'a> Writer<'a> {
    /// Puts bytes at the place that comes next.
    pub fn text(&mut self, bytes: &[u8])
        ensures place { self.new.at ≡ place_after bytes.now self.old.at self.old.room.now }
        ensures room { self.new.room.now ≡ stored_at bytes.now self.old.at self.old.room.now }
        ensures same_room { self.new.room.ghost_name ≡ self.old.room.ghost_name }
    {
        self.at = put_at(self.room, self.at, bytes);
    }

    /// Puts a number in decimal at the place that comes next.
    pub fn number(&mut self, value: u32)
        ensures place { self.new.at ≡ place_after (decimal value) self.old.at self.old.room.now }
        ensures room { self.new.room.now ≡ stored_at (decimal value) self.old.at self.old.room.now }
        ensures same_room { self.new.room.ghost_name ≡ self.old.room.ghost_name }
    {
        self.at = put_decimal(self.room, self.at, value);
    }
}
