//! One stored command read: opcode, flag and arguments, each a number. At each 34 and 35, then at once 5, 38 or 8; 9 or 10 behind the last. Rules: "Lists on
//! a memory card".
ghost use Rattle.std.specs.Prelude.{◌≡◌};
ghost use Rattle.wire.specs.Table.{rule_of};
ghost use Rattle.wire.specs.Kind.{parts_with};
ghost use Rattle.card.specs.Command.{argument_at, arguments_at, flag_at, flagged, behind_opcode, command_at};
ghost use Rattle.card.specs.Steps.{got_of, got_arguments, got_command};

use super::answers::Fault;
use super::number::number_at;
use wire::{Command, Form, Layout, Refusal, Stray};

// A command and the place behind it. Tried: a `Result` of the pair, as for numbers; slower (2,000 lists of 340 commands from a card took 20 ms instead of 16,
// with 160 and 163 million instructions: the command was put together in memory), so it is an enum of its own.
#[derive(Clone, Copy)]
pub enum Stored {
    Taken(Command, usize),
    Bad(Fault),
}

// The argument of a parameter, 1 or 2, with its limits; 0 where the layout has none. Tried: without the hint; slower (213 instead of 163 million instructions
// for those 2,000 lists), as it is then called. And `?` in place of `match`, here and in the two below; slower (19 ms instead of 16, as many instructions).
#[tactic(auto, unfolding(crate::specs::Command::argument_at))]
#[inline(always)]
fn argument_at(
    s: &[u8],
    at: usize,
    layout: Layout,
    par: u8,
    low: u32,
    high: u32,
) -> Result<(u32, usize), Fault>
    ensures { got_of result ≡ argument_at s.now at layout par low high }
{
    if wire::arguments_of(layout) < par as usize {
        return Ok((0, at));
    }
    match number_at(s, at) {
        Err(fault) => Err(fault),
        Ok((value, end)) => {
            if !wire::in_limits(layout, low, high, value) {
                return Err(Fault::Wire(Refusal::OutOfRange(Stray {
                    par,
                    value,
                    low,
                    high,
                })));
            }
            Ok((value, end))
        }
    }
}

// Both arguments of a form, 0 for one that it does not have, and the place behind them.
#[tactic(auto, unfolding(crate::specs::Command::arguments_at))]
fn arguments_at(s: &[u8], at: usize, form: Form) -> Result<(u32, u32, usize), Fault>
    ensures { got_arguments form result ≡ arguments_at s.now at form }
{
    let row = wire::row_of(form);
    match argument_at(s, at, row.layout, 1, row.low1, row.high1) {
        Err(fault) => Err(fault),
        Ok((first, next)) => match argument_at(s, next, row.layout, 2, row.low2, row.high2) {
            Err(fault) => Err(fault),
            Ok((second, end)) => Ok((first, second, end)),
        },
    }
}

// The flag: 0 or 1.
#[tactic(auto, unfolding(crate::specs::Command::flag_at))]
fn flag_at(s: &[u8], at: usize) -> Result<(u32, usize), Fault>
    ensures { got_of result ≡ flag_at s.now at }
{
    match number_at(s, at) {
        Err(fault) => Err(fault),
        Ok((flag, end)) => {
            if 1 < flag {
                return Err(Fault::BadFlag);
            }
            Ok((flag, end))
        }
    }
}

// Behind the last number: the flag by the form's rule.
#[tactic(auto, using(wire::proofs::Answers::refusal_code), unfolding(crate::specs::Command::flagged))]
fn flagged(form: Form, flag: bool, first: u32, second: u32, end: usize) -> Stored
    ensures { got_command result ≡ flagged flag (parts_with form first second) end }
{
    let row = wire::row_of(form);
    match wire::judge_flag(row.flags, flag) {
        Err(refusal) => Stored::Bad(Fault::Wire(refusal)),
        Ok(()) => {
            let kind = wire::kind_of(form, first, second);
            Stored::Taken(Command { flag, kind }, end)
        }
    }
}

// Behind the opcode: the flag, then the arguments.
#[tactic(auto, unfolding(crate::specs::Command::behind_opcode))]
fn behind_opcode(s: &[u8], at: usize, form: Form) -> Stored
    ensures { got_command result ≡ behind_opcode s.now at form }
{
    match flag_at(s, at) {
        Err(fault) => Stored::Bad(fault),
        Ok((flag, next)) => match arguments_at(s, next, form) {
            Err(fault) => Stored::Bad(fault),
            Ok((first, second, end)) => flagged(form, flag == 1, first, second, end),
        },
    }
}

// What a number stands for as an opcode.
fn rule_for(opcode: u32) -> Option<(Form, u16)>
    ensures { result ≡ rule_of opcode }
{
    if (u16::MAX as u32) < opcode {
        return None;
    }
    wire::rule_of(opcode as u16)
}

// The command that begins at a place, and the place behind it.
#[tactic(auto, unfolding(crate::specs::Command::command_at))]
pub fn command_at(s: &[u8], at: usize) -> Stored
    ensures { got_command result ≡ command_at s.now at }
{
    match number_at(s, at) {
        Err(fault) => Stored::Bad(fault),
        Ok((opcode, next)) => match rule_for(opcode) {
            None => Stored::Bad(Fault::Wire(Refusal::UnknownOpcode)),
            Some((form, _)) => behind_opcode(s, next, form),
        },
    }
}
