//! The commands by name, as the table of commands has them, in lower case, with their arguments.
ghost use Rattle.std.specs.Prelude.{◌≡◌, length};

use script::output;
use wire::{Form, Kind, Layout};

// The name of a command, filled up with blanks.
fn name_of(form: Form) -> &'static [u8]
    ensures { 10 ≡ length result.now }
{
    match form {
        Form::ImgPwr => b"img_pwr   ",
        Form::ImgRegion => b"img_region",
        Form::ImgTrack => b"img_track ",
        Form::TrkAlg => b"trk_alg   ",
        Form::TrkLoop => b"trk_loop  ",
        Form::ImgImage => b"img_image ",
        Form::TrkGoal => b"trk_goal  ",
        Form::TlmFlush => b"tlm_flush ",
        Form::FlushAuto => b"flush_auto",
        Form::Open => b"open      ",
        Form::Close => b"close     ",
        Form::Run => b"run       ",
        Form::Wait => b"wait      ",
        Form::Stop => b"stop      ",
        Form::Clear => b"clear     ",
    }
}

// The arguments that a layout has.
fn arguments(out: &mut [u8], used: usize, layout: Layout, first: u32, second: u32) -> usize {
    match layout {
        Layout::Bare => used,
        Layout::Byte | Layout::Half => output::number(out, used, u64::from(first)),
        Layout::Halves | Layout::Singles => {
            let used = output::number(out, used, u64::from(first));
            output::number(out, used, u64::from(second))
        }
    }
}

/// A kind by its name and its arguments in decimal, goals by their bits.
pub fn kind(out: &mut [u8], used: usize, kind: Kind) -> usize {
    let parts = wire::parts_of(kind);
    let used = output::word(out, used, name_of(parts.form));
    let layout = wire::row_of(parts.form).layout;
    arguments(out, used, layout, parts.first, parts.second)
}
