// Groups of prime order, and powers in them.
#![tactic(auto)]

mod circle;
mod group;
mod listed;
mod modular;
mod monoid;
mod prime_group;
mod residue;
mod residues;

pub use circle::Circle;
pub use group::Group;
pub use listed::Parameters;
pub use modular::Modular;
pub use monoid::{Monoid, power};
pub use prime_group::{CircleGroup, PrimeGroup, ResidueGroup};
pub use residue::Residue;
pub use residues::Residues;
