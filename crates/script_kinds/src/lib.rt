// Script commands on the leaf kinds of the supplied set: how they are read, and what they are answered.
#![tactic(auto)]

mod answering;
mod reading;

pub use answering::{KindReply, ask, obey};
pub use reading::{KindCommand, Question, read};
