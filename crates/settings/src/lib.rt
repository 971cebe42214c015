// A rule paired with its ring, as the calls of a bench go through it.
#![tactic(auto)]

mod building;
pub mod node;
pub mod rule;

pub use building::build;
pub use node::{Leaf, Node};
pub use rule::Rule;
