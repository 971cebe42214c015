// Script commands on gates, and the split down a whole rule: how they are read, and what they are answered.
#![tactic(auto)]

mod answering;
mod descending;
mod gate;
mod reading;

pub use answering::{GateReply, answer_gate, obey, scalar};
pub use descending::answer_split;
pub use gate::{Challenges, Children, Gate, GateCommand};
pub use reading::read;
