// Checking transcripts: whether one is acceptable for a rule, and the keys that two of them give.
#![tactic(auto)]

mod checker;
mod equations;
mod forks;
mod gates;
mod transcript;
mod words;

pub use checker::Checker;
pub use forks::check_fork;
pub use words::check_words;
