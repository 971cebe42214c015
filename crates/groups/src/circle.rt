// The circle modulo p: what circle groups are cut from.
ghost use Rattle.std.specs.Prelude.{◌≡◌, ◌+◌, ◌-◌, ◌*◌, ◌%◌, ◌<◌, ◌≤◌, MatchOption};
ghost use Rattle.groups.specs.Circles.{circle_modulo, circle};
ghost use Rattle.groups.specs.CircleLaws.{circle_monoid, circle_cut};

use crate::listed::Parameters;
use crate::modular::Modular;
use crate::monoid::Monoid;
use crate::residue::Residue;

// The pairs of numbers below p, multiplied as a + bi with i squared -1.
#[derive(Clone, Copy)]
pub struct Circle {
    p: u32,
    ghost low: { 1 < p },
    ghost high: { p ≤ 2147483647 },
}

impl Circle {
    // The pairs of numbers below p; none where p is not from 2 to 2,147,483,647.
    pub fn new(p: u32) -> Option<Circle>
        ensures { MatchOption result ((1 < p → p ≤ 2147483647 → ⊥)) (λ s. s.p ≡ p) }
    {
        // kept: `then_some` would make the value before the test that it stands by, and the closure of `then` needs a `requires` of its own
        if (2..=2147483647).contains(&p) {
            Some(Circle { p })
        } else {
            None
        }
    }
}

// The sum of two products, modulo p.
// kept: `as u32` at what is below p: a `TryFrom` has a refusal that never comes
fn two_products(p: u32, a: u32, b: u32, c: u32, d: u32) -> u32
    requires { ((0 < p) × (p ≤ 2147483647)) × ((a ≤ p) × (b ≤ p) × (c ≤ p) × (d ≤ p)) }
    ensures { result ≡ (a * b + c * d) % p }
{
    ((u64::from(a) * u64::from(b) + u64::from(c) * u64::from(d)) % u64::from(p)) as u32
}

impl Monoid for Circle {
    type Index = ();

    type Element = (Residue, Residue);

    ghost monoid = { λ s _. circle_modulo s.p };

    ghost multiplies = { λ s _. circle_monoid s.p s.low };

    fn neutral(&self, _at: ()) -> (Residue, Residue) {
        (Residue::new(1), Residue::new(0))
    }

    fn product(
        &self,
        _at: (),
        x: &(Residue, Residue),
        y: &(Residue, Residue),
    ) -> (Residue, Residue) {
        let (a, b) = (x.0.value(), x.1.value());
        let (c, d) = (y.0.value(), y.1.value());
        let first = two_products(self.p, a, c, self.p - b, d);
        let second = two_products(self.p, a, d, b, c);
        (Residue::new(first), Residue::new(second))
    }
}

impl Modular for (Residue, Residue) {
    type Product = Circle;

    ghost ambient = { circle };

    ghost cut = { circle_cut };

    fn product_modulo(parameters: Parameters) -> Circle {
        Circle { p: parameters.p }
    }

    fn fits(parameters: Parameters) -> bool {
        (parameters.p + 1) % parameters.q == 0 && parameters.p % 4 == 3
    }

    fn is_reduced(self, p: u32) -> bool {
        self.0.value() < p && self.1.value() < p
    }

    fn is_neutral(self) -> bool {
        self == (Residue::new(1), Residue::new(0))
    }

    fn to_words(self) -> (u32, u32) {
        (self.0.value(), self.1.value())
    }

    fn from_words(words: (u32, u32)) -> Option<(Residue, Residue)> {
        Some((Residue::new(words.0), Residue::new(words.1)))
    }
}
