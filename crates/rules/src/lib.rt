// Rules: their texts, read into a table and written again.
#![tactic(auto)]

mod again;
pub mod entry;
mod head;
mod letters;
mod reading;
pub mod table;
mod writing;

pub use again::{reread, rewrite};
pub use entry::{Children, Entry};
pub use reading::read;
pub use table::Table;
pub use writing::{Text, spelled, text_length, write};
