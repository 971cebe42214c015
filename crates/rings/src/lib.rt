// Rings of public keys, and pairing a rule with a ring.
#![tactic(auto)]

mod line;
mod pairing;
mod ring;

pub use line::{Line, Lines, find_line};
pub use pairing::pair;
pub use ring::read_ring;
