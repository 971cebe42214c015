// Whether a gate balances, and at how many children two gates differ.
ghost use Rattle.std.specs.Prelude.{◌≡◌, ℕ, ◌≤◌, T, length, ◌≢◌};
ghost use Rattle.polynomials.specs.Polynomials.{Members};
ghost use Rattle.splits.specs.Gates.{Balanced, Differing};

use crate::gate::split_simulated;
use fields::Field;

// At how many children two gates differ. Balanced gates with different challenges of their own differ at as many children as they want, at least.
pub fn differing<F: Field>(field: &F, a: &[F::Element], b: &[F::Element]) -> usize
    requires { (length a.now ≡ length b.now) × (length a.now ≤ 8) }
    ensures count { Differing a.now b.now result }
    ensures forked { let m = F.Field.model field.now in ((k : ℕ) (own other : F.Element) → k ≤ length a.now → Balanced m k own a.now → Balanced m k other b.now → (own ≢ other) → k ≤ result) }
{
    a.iter().zip(b).filter(|(x, y)| x != y).count()
}

// Whether the children's challenges balance a gate that wants k of them.
pub fn balances<F: Field>(field: &F, k: usize, own: F::Element, children: &[F::Element]) -> bool
    requires sizes { (k ≤ length children.now) × (length children.now ≤ 8) }
    requires elements { let m = F.Field.model field.now in (T (m.member own)) × (Members m children.now) }
    ensures { let m = F.Field.model field.now in (T result → Balanced m k own children.now) × (Balanced m k own children.now → T result) }
{
    // kept: an array and its front: a row is not lent for writing, since the check covers no loan of a part of an array whose length is a parameter
    let mut room = [own; 8];
    let expected = &mut room[..children.len()];
    expected.copy_from_slice(children);
    split_simulated(field, k, own, expected);
    &*expected == children
}
