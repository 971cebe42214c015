// The words of a script's lines, and what is wrong with a line.
#![tactic(auto)]

mod bytes;
mod fault;
mod kind;
mod lines;
mod unanswered;
mod words;

pub use bytes::{is, number};
pub use fault::{Expected, Fault};
pub use kind::Kind;
pub use lines::Lines;
pub use unanswered::Unanswered;
pub use words::Words;
