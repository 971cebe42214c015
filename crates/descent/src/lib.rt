// Splitting a challenge down a whole rule.
#![tactic(auto)]

mod descend;
mod gate;
mod rows;

pub use descend::{share_count, split_down};
pub use gate::split_gate;
