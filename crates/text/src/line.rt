//! One line: codes 30, 32, 31, then 8 to 10. Rules: "Typed lists".
ghost use Rattle.std.specs.Prelude.{◌≡◌};
ghost use Rattle.text.specs.Line.{first_of, second_of, line_of, answer_command, answer_line};
ghost use Rattle.text.specs.Split.{space};
ghost use Rattle.text.specs.Steps.{run_of, up_to_three, judged_line, known_line, typed_line};

use super::findings::Fault;
use super::goal::goal_of;
use super::names::form_named;
use super::number::whole_of;
use super::split::{SPACE, behind, front};
use wire::{Command, Form, Layout};

// The first argument, by its layout.
fn first_of(layout: Layout, part: &[u8]) -> Option<u32>
    ensures { result ≡ first_of layout part.now }
{
    match layout {
        Layout::Bare => Some(0),
        Layout::Byte | Layout::Half | Layout::Halves => whole_of(part),
        Layout::Singles => goal_of(part),
    }
}

// The second argument, by its layout.
fn second_of(layout: Layout, part: &[u8]) -> Option<u32>
    ensures { result ≡ second_of layout part.now }
{
    match layout {
        Layout::Bare | Layout::Byte | Layout::Half => Some(0),
        Layout::Halves => whole_of(part),
        Layout::Singles => goal_of(part),
    }
}

// Numbers of a form, judged as they were typed.
fn judged_line(form: Form, flag: bool, first: u32, second: u32) -> Result<Command, Fault>
    ensures { answer_command result ≡ judged_line form flag first second }
{
    wire::judge_by(wire::row_of(form), flag, first, second)?;
    Ok(Command {
        flag,
        kind: wire::kind_of(form, first, second),
    })
}

// How many spaces a line has, 3 standing for more: does one follow the name, the first argument, the second?
fn spaces_of(one: bool, two: bool, three: bool) -> usize
    ensures { result ≡ up_to_three one two three }
{
    if !one {
        return 0;
    }
    if !two {
        return 1;
    }
    if three { 3 } else { 2 }
}

// A line whose name is known and has so many bytes. It is passed once, from the front.
fn known_line(form: Form, flag: bool, body: &[u8], name: usize) -> Result<Command, Fault>
    requires { name ≡ run_of space body.now }
    ensures { answer_command result ≡ known_line form flag body.now }
{
    let layout = wire::row_of(form).layout;
    let arguments = behind(body, name);
    let one = front(arguments, SPACE);
    let others = behind(arguments, one.len());
    let two = front(others, SPACE);
    let spaces = spaces_of(
        name < body.len(),
        one.len() < arguments.len(),
        two.len() < others.len(),
    );
    if spaces != wire::arguments_of(layout) {
        return Err(Fault::WrongCount);
    }
    let first = first_of(layout, one).ok_or(Fault::Malformed)?;
    let second = second_of(layout, two).ok_or(Fault::Malformed)?;
    judged_line(form, flag, first, second)
}

// A line behind its `+`.
fn typed_line(flag: bool, body: &[u8]) -> Result<Command, Fault>
    ensures { answer_command result ≡ typed_line flag body.now }
{
    let name = front(body, SPACE);
    let form = form_named(name).ok_or(Fault::UnknownName)?;
    known_line(form, flag, body, name.len())
}

/// The command that a line says; none where it is empty or a comment.
///
/// # Errors
///
/// 30, 32, 31, 8, then 9 or 10, the first that is due in that order. Rules: "Typed lists".
// Put in place: with a call for each line, running a text of blank lines took a third longer where a program has the rest of the bench beside it.
#[inline(always)]
pub fn line_of(line: &[u8]) -> Result<Option<Command>, Fault>
    ensures { answer_line result ≡ line_of line.now }
{
    if line.len() == 0 || line[0] == b'#' {
        return Ok(None);
    }
    let command = if line[0] == b'+' {
        typed_line(true, &line[1..])?
    } else {
        typed_line(false, line)?
    };
    Ok(Some(command))
}
