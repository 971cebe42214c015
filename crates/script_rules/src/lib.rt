// Script commands on rules: how they are read, and what they are answered.
#![tactic(auto)]

mod answering;
mod reading;
mod shown;

pub use answering::{RuleReply, read_rule, write_rule};
pub use reading::{RuleCommand, read, rule_text};
