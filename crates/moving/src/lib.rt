//! What the programs of the memory card write: the list as it was moved, or the line that says why it was not.
#![tactic(auto)]

ghost use Rattle.std.specs.Prelude.{◌≤◌, ◌≡◌, length};
ghost use Rattle.card.specs.Answers.{answer_of};
ghost use Rattle.listing.specs.declared.refusals.Numbered.{Numbered};
ghost use Rattle.listing.specs.Refusal.{refusal_line, refusal_room, output_for, room_for};
ghost use Rattle.moving.specs.Found.{outcome_of};

use card::Refused;
use listing::{Numbered, Output};
use text::Finding;

/// What is to be written of a room that a list was to be moved into, by what came of that; a refusal's line is put there.
pub fn put_moved(room: &mut [u8], moved: Result<usize, Refused>) -> Output
    ensures value { result ≡ output_for Numbered.Commands (outcome_of (answer_of moved)) room.old }
    ensures room_after { room.new ≡ room_for Numbered.Commands (outcome_of (answer_of moved)) room.old }
    ensures moved_len_bound { length (refusal_line Numbered.Commands (outcome_of (answer_of moved)).found) ≤ refusal_room }
{
    let found = Finding {
        told: wire::told_of(&moved),
        number: card::number_of(&moved),
    };
    listing::put_outcome(room, Numbered::Commands, found, moved.unwrap_or(0))
}
