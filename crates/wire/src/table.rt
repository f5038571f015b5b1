//! The table of commands: a row for each of the fifteen forms, and the way from an opcode to its form and length.
ghost use Rattle.std.specs.Prelude.{◌≡◌};
ghost use Rattle.wire.specs.Table.{row_with, row_of, arguments_of, rule_of};

/// The fifteen commands without their arguments, in the order of the table.
#[derive(Clone, Copy, Debug, PartialEq, Eq)]
pub enum Form {
    ImgPwr,
    ImgRegion,
    ImgTrack,
    TrkAlg,
    TrkLoop,
    ImgImage,
    TrkGoal,
    TlmFlush,
    FlushAuto,
    Open,
    Close,
    Run,
    Wait,
    Stop,
    Clear,
}

/// How the argument words are laid out: none; 8 bits and a pad; 16 bits and a pad; 16 bits twice; two singles.
#[derive(Clone, Copy, Debug, PartialEq, Eq)]
pub enum Layout {
    Bare,
    Byte,
    Half,
    Halves,
    Singles,
}

/// What the macro flag may be: either, never 1, always 1.
#[derive(Clone, Copy, Debug, PartialEq, Eq)]
pub enum FlagRule {
    Either,
    Never,
    Always,
}

/// One row. An argument that a form does not have is 0 and has the limits 0 and 0.
#[derive(Clone, Copy, Debug, PartialEq, Eq)]
pub struct Row {
    pub opcode: u16,
    /// The length of the whole command, in words of 32 bits.
    pub words: u16,
    pub layout: Layout,
    pub flags: FlagRule,
    /// The lowest and the highest first argument that are allowed, of a goal by their bits.
    pub low1: u32,
    pub high1: u32,
    /// The same of the second.
    pub low2: u32,
    pub high2: u32,
}

const LAST_PIXEL: u32 = 1023;

const LAST_MACRO: u32 = 7;

const LONGEST_WAIT: u32 = 600;

const ANY_HALF: u32 = 65535;
// The bits of the largest single below 1024.
const LAST_GOAL: u32 = 0x447f_ffff;

// A row of no arguments. The others differ from it in what they have.
const BARE: Row = Row {
    opcode: 0,
    words: 2,
    layout: Layout::Bare,
    flags: FlagRule::Either,
    low1: 0,
    high1: 0,
    low2: 0,
    high2: 0,
};

// A row of one argument of 8 bits, from 0 up.
fn byte_row(opcode: u16, flags: FlagRule, high: u32) -> Row
    ensures { result ≡ row_with opcode 3 Layout.Byte flags 0 high 0 0 }
{
    Row {
        opcode,
        words: 3,
        layout: Layout::Byte,
        flags,
        high1: high,
        ..BARE
    }
}

// A row of two arguments of 16 bits, the first from 0 up; the flag may be either.
fn halves_row(opcode: u16, high1: u32, low2: u32, high2: u32) -> Row
    ensures { result ≡ row_with opcode 3 Layout.Halves FlagRule.Either 0 high1 low2 high2 }
{
    Row {
        opcode,
        words: 3,
        layout: Layout::Halves,
        high1,
        low2,
        high2,
        ..BARE
    }
}

// A row of no arguments.
fn bare_row(opcode: u16, flags: FlagRule) -> Row
    ensures { result ≡ row_with opcode 2 Layout.Bare flags 0 0 0 0 }
{
    Row {
        opcode,
        flags,
        ..BARE
    }
}

// The goal's row: two singles, by their bits.
fn goal_row() -> Row
    ensures { result ≡ row_of Form.TrkGoal }
{
    Row {
        opcode: 0x0153,
        words: 4,
        layout: Layout::Singles,
        high1: LAST_GOAL,
        high2: LAST_GOAL,
        ..BARE
    }
}

// WAIT's row: 16 bits and a pad.
fn wait_row() -> Row
    ensures { result ≡ row_of Form.Wait }
{
    Row {
        opcode: 0x7f04,
        words: 3,
        layout: Layout::Half,
        flags: FlagRule::Always,
        low1: 1,
        high1: LONGEST_WAIT,
        ..BARE
    }
}

/// The table's row of a form.
pub fn row_of(form: Form) -> Row
    ensures { result ≡ row_of form }
{
    match form {
        Form::ImgPwr => byte_row(0x0114, FlagRule::Either, 1),
        Form::ImgRegion => halves_row(0x0117, LAST_PIXEL, 0, LAST_PIXEL),
        Form::ImgTrack => halves_row(0x0118, ANY_HALF, 1, ANY_HALF),
        Form::TrkAlg => byte_row(0x0148, FlagRule::Either, 2),
        Form::TrkLoop => byte_row(0x014b, FlagRule::Either, 1),
        Form::ImgImage => halves_row(0x0150, ANY_HALF, 1, ANY_HALF),
        Form::TrkGoal => goal_row(),
        Form::TlmFlush => bare_row(0x015a, FlagRule::Either),
        Form::FlushAuto => byte_row(0x015c, FlagRule::Either, 1),
        Form::Open => byte_row(0x7f01, FlagRule::Never, LAST_MACRO),
        Form::Close => bare_row(0x7f02, FlagRule::Never),
        Form::Run => byte_row(0x7f03, FlagRule::Either, LAST_MACRO),
        Form::Wait => wait_row(),
        Form::Stop => bare_row(0x7f05, FlagRule::Never),
        Form::Clear => bare_row(0x7f06, FlagRule::Never),
    }
}

/// How many arguments a layout has.
pub fn arguments_of(layout: Layout) -> usize
    ensures { result ≡ arguments_of layout }
{
    match layout {
        Layout::Bare => 0,
        Layout::Byte | Layout::Half => 1,
        Layout::Halves | Layout::Singles => 2,
    }
}

/// What an opcode stands for: a line to each of the fifteen, in the table's order, with its form and its length in words. No other number is an opcode.
pub fn rule_of(opcode: u16) -> Option<(Form, u16)>
    ensures { result ≡ rule_of opcode }
{
    match opcode {
        0x0114 => Some((Form::ImgPwr, 3)),
        0x0117 => Some((Form::ImgRegion, 3)),
        0x0118 => Some((Form::ImgTrack, 3)),
        0x0148 => Some((Form::TrkAlg, 3)),
        0x014b => Some((Form::TrkLoop, 3)),
        0x0150 => Some((Form::ImgImage, 3)),
        0x0153 => Some((Form::TrkGoal, 4)),
        0x015a => Some((Form::TlmFlush, 2)),
        0x015c => Some((Form::FlushAuto, 3)),
        0x7f01 => Some((Form::Open, 3)),
        0x7f02 => Some((Form::Close, 2)),
        0x7f03 => Some((Form::Run, 3)),
        0x7f04 => Some((Form::Wait, 3)),
        0x7f05 => Some((Form::Stop, 2)),
        0x7f06 => Some((Form::Clear, 2)),
        _ => None,
    }
}
