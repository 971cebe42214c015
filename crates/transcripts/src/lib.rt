// Transcripts as words: N challenges, L commitments of four words, L responses of two.
#![tactic(auto)]

mod reading;
mod spelling;
pub mod transcript;
mod writing;

pub use reading::read_words;
pub use transcript::Transcript;
pub use writing::{write_images, write_words};
