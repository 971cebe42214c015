// The scalars modulo q: their maker, and the field that they are.
ghost use Rattle.std.specs.Prelude.{◌≡◌, ◌/◌, ◌%◌, ◌<◌, ◌≤◌, T, if◌then◌else◌, MatchResult};
ghost use Rattle.refusals.specs.declared.Parameter.TheVariants.{Order};
ghost use Rattle.refusals.specs.declared.Refusal.TheVariants.{OutOfRange, NotPrime};
ghost use Rattle.fields.specs.Modular.{difference_mod, product_mod};
ghost use Rattle.fields.specs.Primes.{Prime, in_range};
ghost use Rattle.fields.specs.Scalars.{scalars_model};
ghost use Rattle.fields.specs.ScalarLaws.{scalar_laws};
ghost use Rattle.std.proofs.Common.{rules, arith};

use crate::field::Field;
use crate::modular;
use crate::order::Scalars;
use crate::scalar::Scalar;
use refusals::{Parameter, Refusal};

// Whether no number between 1 and q divides q.
pub fn is_prime(q: u32) -> bool
    requires { 2 ≤ q }
    ensures { (T result → Prime q) × (Prime q → T result) }
{
    (2..q.isqrt() + 1).all(|d| q % d != 0)
}

impl Scalars {
    // The scalars modulo q; refused as out of range, else as no prime.
    pub fn new(q: u32) -> Result<Scalars, Refusal>
        ensures made { MatchResult result (λ s. s.q ≡ q) (λ e. e ≡ (if in_range q then NotPrime else OutOfRange Order)) }
        ensures exact { MatchResult result (λ _. Prime q) (λ _. T (in_range q) → Prime q → ⊥) }
    {
        if !(11..=2147483647).contains(&q) {
            return Err(Refusal::OutOfRange(Parameter::Order));
        }
        if is_prime(q) {
            Ok(Scalars { q })
        } else {
            Err(Refusal::NotPrime)
        }
    }

    // The scalars modulo a number that is known to be an order: no test is made.
    pub fn known(q: u32) -> Scalars
        requires { (Prime q) × ((11 ≤ q) × (q ≤ 2147483647)) }
        ensures { result.q ≡ q }
    {
        Scalars { q }
    }

    pub fn order(&self) -> u32
        ensures { result ≡ self.now.q }
    {
        self.q
    }

    // One of Euclid's steps on pairs of a remainder and its factor: whole newer ones are taken off the older.
    fn euclid_step(&self, older: (Scalar, Scalar), newer: (Scalar, Scalar)) -> (Scalar, Scalar)
        requires { (0 < newer.0.0) × ((older.1.0 < self.now.q) × (newer.1.0 < self.now.q)) }
        ensures remainder { result.0.0 ≡ older.0.0 % newer.0.0 }
        ensures factor { result.1.0 ≡ difference_mod self.now.q older.1.0 (product_mod self.now.q (older.0.0 / newer.0.0) newer.1.0) }
    {
        let whole = older.0.value() / newer.0.value();
        let taken = modular::product(self.q, whole, newer.1.value());
        let remainder = older.0.value() % newer.0.value();
        let factor = modular::difference(self.q, older.1.value(), taken);
        (Scalar::new(remainder), Scalar::new(factor))
    }
}

impl Field for Scalars {
    type Element = Scalar;

    ghost model = { λ s. scalars_model s.q };

    ghost lawful = { λ s. scalar_laws s.q s.prime s.low };

    ghost same = { λ a b. Prim.search rules };

    ghost small = { first_of (Prim.search rules, Prim.grind (arith, Self.row.coded.inj)) };

    fn zero(&self) -> Scalar {
        Scalar::new(0)
    }

    fn one(&self) -> Scalar {
        Scalar::new(1)
    }

    fn point(&self, j: u8) -> Scalar {
        Scalar::new(u32::from(j))
    }

    fn sum(&self, a: Scalar, b: Scalar) -> Scalar {
        Scalar::new(modular::sum(self.q, a.value(), b.value()))
    }

    fn difference(&self, a: Scalar, b: Scalar) -> Scalar {
        Scalar::new(modular::difference(self.q, a.value(), b.value()))
    }

    fn negative(&self, a: Scalar) -> Scalar {
        Scalar::new(modular::negative(self.q, a.value()))
    }

    fn product(&self, a: Scalar, b: Scalar) -> Scalar {
        Scalar::new(modular::product(self.q, a.value(), b.value()))
    }

    // Each pair's factor times the divisor is its remainder times the dividend; q stands for 0.
    fn quotient(&self, dividend: Scalar, divisor: Scalar) -> Scalar {
        let mut older = (Scalar::new(self.q), Scalar::new(0));
        let mut newer = (divisor, dividend);
        while newer.0.value() > 0 {
            let next = self.euclid_step(older, newer);
            older = newer;
            newer = next;
        }
        older.1
    }
}
