// The order of the scalars: a prime from 11 to 2,147,483,647.
ghost use Rattle.std.specs.Prelude.{◌≤◌};
ghost use Rattle.fields.specs.Primes.{Prime};

#[derive(Clone, Copy)]
pub struct Scalars {
    pub(crate) q: u32,
    ghost low: { 11 ≤ q },
    ghost high: { q ≤ 2147483647 },
    ghost prime: { Prime q },
}
