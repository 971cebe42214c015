// Fields: scalars modulo a prime, and the interface that splitting a challenge stands on.
#![tactic(auto)]

mod field;
mod modular;
mod order;
mod scalar;
mod scalars;

pub use field::Field;
pub use modular::{difference as difference_modulo, product as product_modulo};
pub use order::Scalars;
pub use scalar::Scalar;
pub use scalars::is_prime;
