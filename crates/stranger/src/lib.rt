// A set of leaf kinds that stands on the interface alone, and joins of it with other sets.
#![tactic(auto)]

mod joined;
mod maker;
mod multiples;
mod set;

pub use joined::{image_beside_own, image_of_sum, power_beside_any, sum_beside_single};
pub use multiples::Multiples;
