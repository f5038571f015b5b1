//! What a pupil types: lines with names, numbers and goals; whole texts to raw lists and back; the line that a record's number names.
//! Rules: "Typed lists".
#![tactic(auto)]

mod assembling;
mod findings;
mod goal;
mod line;
mod names;
mod number;
mod printing;
mod same;
mod showing;
mod split;

pub use assembling::{assemble, judge_text};
pub use findings::{Fault, Finding, Refusal, finding_of, of_whole};
pub use line::line_of;
pub use printing::list_text;
pub use showing::{LONGEST, line_shown};
pub use split::{LINE_FEED, front};
