//! Lists on a memory card: the stored form of a list, without pads and sums, and the raw list back from it. Rules: "Lists on a memory card".
#![tactic(auto)]

mod answers;
mod command;
mod number;
mod restoring;
mod storing;

pub use answers::{Fault, Refused, number_of};
pub use restoring::from_card;
pub use storing::to_card;
