//! The decoded command, and its middle form: a form and two numbers, in which ranges, layouts and flags are rules about numbers.
ghost use Rattle.std.specs.Prelude.{◌≡◌, ◌%◌};
ghost use Rattle.std.specs.Float.{binary32};
ghost use Rattle.std.specs.Float.Ieee.{of_bits, to_bits};
ghost use Rattle.wire.specs.Kind.{parts_with, parts_of, kind_of};

use super::table::Form;

/// One kind out of fifteen with its own arguments, as they stand on the wire; they may be out of range.
#[derive(Clone, Copy)]
pub enum Kind {
    ImgPwr(u8),
    ImgRegion(u16, u16),
    ImgTrack(u16, u16),
    TrkAlg(u8),
    TrkLoop(u8),
    ImgImage(u16, u16),
    TrkGoal(f32, f32),
    TlmFlush,
    FlushAuto(u8),
    Open(u8),
    Close,
    Run(u8),
    Wait(u16),
    Stop,
    Clear,
}

/// A decoded command: the macro flag (true: append) and the kind.
#[derive(Clone, Copy)]
pub struct Command {
    pub flag: bool,
    pub kind: Kind,
}

/// The form of a command and its arguments as numbers, goals by their bits; 0 where there is no such argument.
#[derive(Clone, Copy, Debug, PartialEq, Eq)]
pub struct Parts {
    pub form: Form,
    pub first: u32,
    pub second: u32,
}

// The bits that every not-a-number counts as.
const NAN_BITS: u32 = 0x7fc0_0000;
// Without the sign, bits above these are a not-a-number's.
const INFINITY_BITS: u32 = 0x7f80_0000;

const SIGN_BIT: u32 = 0x8000_0000;

// The bits of a single.
fn bits_of(x: f32) -> u32
    ensures { result ≡ to_bits binary32 x }
{
    if x.is_nan() { NAN_BITS } else { x.to_bits() }
}

// The single that has these bits.
fn single_of(bits: u32) -> f32
    ensures { result ≡ of_bits binary32 bits }
{
    if INFINITY_BITS < bits % SIGN_BIT {
        f32::NAN
    } else {
        f32::from_bits(bits)
    }
}

// With it `parts_of` has a line to each kind.
fn parts_with(form: Form, first: u32, second: u32) -> Parts
    ensures { result ≡ parts_with form first second }
{
    Parts {
        form,
        first,
        second,
    }
}

/// A kind taken apart. No `From`: the way back takes more than parts say, and contracts name both by their functions.
pub fn parts_of(kind: Kind) -> Parts
    ensures { result ≡ parts_of kind }
{
    match kind {
        Kind::ImgPwr(mode) => parts_with(Form::ImgPwr, mode as u32, 0),
        Kind::ImgRegion(x, y) => parts_with(Form::ImgRegion, x as u32, y as u32),
        Kind::ImgTrack(time, interval) => parts_with(Form::ImgTrack, time as u32, interval as u32),
        Kind::TrkAlg(mode) => parts_with(Form::TrkAlg, mode as u32, 0),
        Kind::TrkLoop(mode) => parts_with(Form::TrkLoop, mode as u32, 0),
        Kind::ImgImage(time, interval) => parts_with(Form::ImgImage, time as u32, interval as u32),
        Kind::TrkGoal(x, y) => parts_with(Form::TrkGoal, bits_of(x), bits_of(y)),
        Kind::TlmFlush => parts_with(Form::TlmFlush, 0, 0),
        Kind::FlushAuto(mode) => parts_with(Form::FlushAuto, mode as u32, 0),
        Kind::Open(number) => parts_with(Form::Open, number as u32, 0),
        Kind::Close => parts_with(Form::Close, 0, 0),
        Kind::Run(number) => parts_with(Form::Run, number as u32, 0),
        Kind::Wait(seconds) => parts_with(Form::Wait, seconds as u32, 0),
        Kind::Stop => parts_with(Form::Stop, 0, 0),
        Kind::Clear => parts_with(Form::Clear, 0, 0),
    }
}

// Two cuts, since an `as` may lose no bits: the remainder is taken first, by a number that the width fixes.
fn cut8(x: u32) -> u8
    ensures { result ≡ x % 256 }
{
    (x % 256) as u8
}

fn cut16(x: u32) -> u16
    ensures { result ≡ x % 65536 }
{
    (x % 65536) as u16
}

/// A kind put together; each argument is cut to its field's width by the remainder, a goal is the single with these bits.
pub fn kind_of(form: Form, first: u32, second: u32) -> Kind
    ensures { result ≡ kind_of form first second }
{
    match form {
        Form::ImgPwr => Kind::ImgPwr(cut8(first)),
        Form::ImgRegion => Kind::ImgRegion(cut16(first), cut16(second)),
        Form::ImgTrack => Kind::ImgTrack(cut16(first), cut16(second)),
        Form::TrkAlg => Kind::TrkAlg(cut8(first)),
        Form::TrkLoop => Kind::TrkLoop(cut8(first)),
        Form::ImgImage => Kind::ImgImage(cut16(first), cut16(second)),
        Form::TrkGoal => Kind::TrkGoal(single_of(first), single_of(second)),
        Form::TlmFlush => Kind::TlmFlush,
        Form::FlushAuto => Kind::FlushAuto(cut8(first)),
        Form::Open => Kind::Open(cut8(first)),
        Form::Close => Kind::Close,
        Form::Run => Kind::Run(cut8(first)),
        Form::Wait => Kind::Wait(cut16(first)),
        Form::Stop => Kind::Stop,
        Form::Clear => Kind::Clear,
    }
}
