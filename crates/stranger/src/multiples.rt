// Multiples of a base g, counted modulo a prime q that need be the order of no listed group.
ghost use Rattle.std.specs.Prelude.{◌≤◌, T};
ghost use Rattle.stranger.specs.Multiples.{is_base};

use fields::{Scalar, Scalars};

#[derive(Clone, Copy)]
pub struct Multiples {
    pub(crate) scalars: Scalars,
    pub(crate) base: Scalar,
    pub(crate) count: u8,
    ghost fit: { T (is_base scalars.q base.0) },
    ghost few: { count ≤ 255 },
}
