//! One command: the table of commands, the decoded form, judging, reading and writing.
//! A refusal of any of these is a `Refusal`, and its `told` gives its code and, for code 8, what was wrong with the number; `told_of` gives the same of an
//! answer. Rules: "A command on the wire".
#![tactic(auto)]

mod decoding;
mod encoding;
mod judging;
mod kinds;
mod table;

pub use decoding::{read_command, span};
pub use encoding::write_command;
pub use judging::{
    Refusal, Stray, Tell, Told, first_bad, in_limits, judge, judge_by, judge_flag, plain, told_of,
};
pub use kinds::{Command, Kind, kind_of, parts_of};
pub use table::{FlagRule, Form, Layout, Row, arguments_of, row_of, rule_of};
