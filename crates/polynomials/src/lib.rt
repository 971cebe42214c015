// Polynomials over a field: their value, and the one that takes given values at given points.
#![tactic(auto)]

mod newton;

pub use newton::{interpolate, value};
