//! What becomes of a command, by the power and the tally of the macros alone: it is accepted, or refused.
ghost use Rattle.std.specs.Prelude.{◌≡◌, ℕ, List};
ghost use Rattle.wire.specs.Read.{answer_of, read_of};
ghost use Rattle.words.specs.BigEndian.{written};
ghost use Rattle.bench.specs.Run.{record_of};
ghost use Rattle.bench.specs.Steps.{decision_of, permitted_by, decided_by, decided_in};

use super::Rejection;
use store::Tally;
use wire::{Command, Refusal, Tell, Told};

// The record of what is told of a command, at the front of a room.
fn put_told(room: &mut [u8], sender: u8, told: Told, number: u32)
    ensures { room.new ≡ written (record_of sender told number) room.old }
{
    let _ = report::put_record(
        room,
        sender,
        told.code,
        told.stray.par,
        number,
        told.stray.value,
    );
}

/// The record of a decision. That of an accepted command is put by itself, for there all but the sender and the number are constants: most commands
/// are accepted, and with one call for both the compiler carries code, parameter and value along for each of them (speed/README.md has the figures).
pub fn put_decided(room: &mut [u8], sender: u8, decision: Result<Command, Rejection>, number: u32)
    ensures { room.new ≡ written (record_of sender (decision_of decision).told number) room.old }
{
    match decision {
        Ok(_) => put_told(room, sender, wire::plain(0), number),
        Err(rejection) => put_told(room, sender, rejection.told(), number),
    }
}

/// Codes 26, 11 to 19 and 25, on a command that passed the earlier ones. The power is asked first: mostly it is on, and then row 26 needs no more.
pub fn permitted(power: bool, tally: Tally, command: Command) -> Result<Command, Rejection>
    ensures { decision_of result ≡ permitted_by power tally command }
{
    if !power && !command.flag && camera::is_dark(power, command.kind) {
        return Err(Rejection::Dark);
    }
    tally.permits(command)?;
    Ok(command)
}

/// A decoded command: 8 to 10, 26, 11 to 19 and 25.
pub fn decide(power: bool, tally: Tally, command: Command) -> Result<Command, Rejection>
    ensures { decision_of result ≡ decided_by power tally command }
{
    wire::judge(command)?;
    permitted(power, tally, command)
}

/// A command as it was read, or why it could not be: 1 to 10, 26, 11 to 19 and 25.
pub fn decide_read(
    power: bool,
    tally: Tally,
    read: Result<Command, Refusal>,
) -> Result<Command, Rejection>
    ensures { (s : List ℕ) → answer_of read ≡ read_of s → decision_of result ≡ decided_in power tally s }
{
    let command = read?;
    permitted(power, tally, command)
}

/// The command at the front of these bytes: 1 to 10, 26, 11 to 19 and 25.
pub fn decide_bytes(power: bool, tally: Tally, bytes: &[u8]) -> Result<Command, Rejection>
    ensures { decision_of result ≡ decided_in power tally bytes.now }
{
    decide_read(power, tally, wire::read_command(bytes))
}
