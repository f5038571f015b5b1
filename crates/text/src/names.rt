//! The names of the table. Rules: "Typed lists".
ghost use Rattle.std.specs.Prelude.{◌≡◌};
ghost use Rattle.wire.specs.Table.{name_of};
ghost use Rattle.text.specs.Names.{form_named};

use super::same::same;
use wire::Form;

// The forms in the table's order.
const FORMS: [Form; 15] = [
    Form::ImgPwr,
    Form::ImgRegion,
    Form::ImgTrack,
    Form::TrkAlg,
    Form::TrkLoop,
    Form::ImgImage,
    Form::TrkGoal,
    Form::TlmFlush,
    Form::FlushAuto,
    Form::Open,
    Form::Close,
    Form::Run,
    Form::Wait,
    Form::Stop,
    Form::Clear,
];

/// The name of a form.
#[tactic(auto, unfolding(wire::specs::Table::name_of))]
pub fn name_of(form: Form) -> &'static [u8]
    ensures { result.now ≡ name_of form }
{
    match form {
        Form::ImgPwr => b"img_pwr",
        Form::ImgRegion => b"img_region",
        Form::ImgTrack => b"img_track",
        Form::TrkAlg => b"trk_alg",
        Form::TrkLoop => b"trk_loop",
        Form::ImgImage => b"img_image",
        Form::TrkGoal => b"trk_goal",
        Form::TlmFlush => b"tlm_flush",
        Form::FlushAuto => b"flush_auto",
        Form::Open => b"open",
        Form::Close => b"close",
        Form::Run => b"run",
        Form::Wait => b"wait",
        Form::Stop => b"stop",
        Form::Clear => b"clear",
    }
}

/// The form that has this name.
pub fn form_named(name: &[u8]) -> Option<Form>
    ensures { result ≡ form_named name.now }
{
    for &form in FORMS.iter() {
        if same(name, name_of(form)) {
            return Some(form);
        }
    }
    None
}
