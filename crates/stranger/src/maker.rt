// How a set of multiples is made.
ghost use Rattle.std.specs.Prelude.{◌≡◌, MatchResult};
ghost use Rattle.stranger.specs.Multiples.{Refused};

use crate::multiples::Multiples;
use fields::{Scalar, Scalars};
use refusals::{Base, Refusal};

impl Multiples {
    // The set of `count` kinds, kind k with the base k times g; refused where q is out of range or no prime, or g is not from 1 to q - 1.
    pub fn new(q: u32, g: u32, count: u8) -> Result<Multiples, Refusal>
        ensures { MatchResult result (λ s. (s.scalars.q ≡ q) × (s.base.0 ≡ g) × (s.count ≡ count)) (Refused q g) }
    {
        let scalars = Scalars::new(q)?;
        if !(1..q).contains(&g) {
            return Err(Refusal::UnfitBase(Base::First));
        }
        Ok(Multiples {
            scalars,
            base: Scalar::new(g),
            count,
        })
    }
}
