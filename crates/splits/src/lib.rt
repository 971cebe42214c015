// Splitting the challenge of a gate over its children, and what holds of every split.
#![tactic(auto)]

mod compare;
mod gate;
mod rows;

pub use compare::{balances, differing};
pub use gate::{split, split_simulated};
