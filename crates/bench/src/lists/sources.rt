//! Where the commands of a run come from: a raw list, or the lines of a text.
ghost use Rattle.std.specs.Prelude.{◌≡◌, ◌+◌, ◌^◌, ◌<◌, ◌≤◌, ℕ, List, length};
ghost use Rattle.walk.specs.Walk.{rests};
ghost use Rattle.wire.specs.Write.{list_bytes};
ghost use Rattle.text.specs.Split.{lines_of};
ghost use Rattle.text.specs.Assemble.{commands_in, numbers_in};
ghost use Rattle.bench.specs.Run.{numbers_from};
ghost use Rattle.text.specs.Line.{line_of};
ghost use Rattle.bench.specs.Steps.{Gives, said_by};

use wire::{Command, Refusal};

/// Commands in turn, each as it is read, with the number of its record.
pub trait Source {
    ghost commands: { Self → List (List ℕ) };

    ghost numbers: { Self → List ℕ };

    /// The next command and its number; none behind the last.
    fn next(&mut self) -> Option<(u32, Result<Command, Refusal>)>
        ensures { Gives (commands self.old) (numbers self.old) result (commands self.new) (numbers self.new) };
}

/// What is left of a raw list. A command's number is its place in the list, from 1.
#[derive(Drop)]
pub struct Raw<'a> {
    pub left: walk::Commands<'a>,
    pub number: u32,
    ghost few: { number + length (rests left.left.now) < 2 ^ 32 },
}

impl<'a> Raw<'a> {
    /// A whole list.
    pub(crate) fn new(list: &'a [u8]) -> Raw<'a>
        requires { length list.now ≤ 4096 }
        ensures { (result.left.left.now ≡ list.now) × (result.number ≡ 0) }
    {
        Raw {
            left: walk::Commands::new(list),
            number: 0,
        }
    }
}

impl<'a> Source for Raw<'a> {
    ghost commands = { λ s. rests s.left.left.now };

    ghost numbers = { λ s. numbers_from (s.number + 1) (rests s.left.left.now) };

    fn next(&mut self) -> Option<(u32, Result<Command, Refusal>)> {
        let rest = self.left.next()?;
        self.number += 1;
        Some((self.number, wire::read_command(rest)))
    }
}

// The command that a line says.
fn said(line: &[u8]) -> Option<Command>
    ensures { said_by result ≡ (line_of line.now).taken }
{
    match text::line_of(line) {
        Ok(said) => said,
        Err(_) => None,
    }
}

/// What is left of a text. A command's number is that of its line, from 1; a line that says no command is only counted.
#[derive(Drop)]
pub struct Lines<'a> {
    pub left: &'a [u8],
    pub number: u32,
    ghost few: { number + length left.now < 2 ^ 32 },
}

impl<'a> Lines<'a> {
    /// A whole text.
    pub(crate) fn new(text: &'a [u8]) -> Lines<'a>
        requires { length text.now ≤ 32768 }
        ensures { (result.left.now ≡ text.now) × (result.number ≡ 0) }
    {
        Lines {
            left: text,
            number: 0,
        }
    }
}

impl<'a> Source for Lines<'a> {
    ghost commands = { λ s. rests (list_bytes (commands_in (lines_of s.left.now))) };

    ghost numbers = { λ s. numbers_in (s.number + 1) (lines_of s.left.now) };

    fn next(&mut self) -> Option<(u32, Result<Command, Refusal>)> {
        // By the length, which the proof reads.
        while 0 < self.left.len() {
            let line = text::front(self.left, text::LINE_FEED);
            self.number += 1;
            self.left = &self.left[self.left.len().min(line.len() + 1)..];
            if let Some(command) = said(line) {
                return Some((self.number, Ok(command)));
            }
        }
        None
    }
}
