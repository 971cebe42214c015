// Scripts: commands, one a line, that are read, obeyed in order and answered.
#![tactic(auto)]

mod command;
mod group_commands;
mod questions;
mod scalar_commands;
mod session;

pub use command::{Command, Reply, read};
pub use group_commands::{GroupCommand, GroupReply};
pub use questions::Question;
pub use scalar_commands::{Operation, ScalarCommand, ScalarReply};
pub use session::Session;
