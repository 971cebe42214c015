// Groups of prime order modulo p: values that have passed the checks of their maker.
ghost use Rattle.std.specs.Prelude.{⊤, ◌≡◌, not, T, is_some, IfOk};
ghost use Rattle.refusals.specs.Checks.{told};
ghost use Rattle.groups.specs.Ambients.{base, group_elements, group_model, group_refusal};
ghost use Rattle.groups.specs.PrimeLaws.{group_monoid, group_laws};

use crate::group::Group;
use crate::listed::Parameters;
use crate::modular::Modular;
use crate::monoid::{Monoid, power};
use crate::residue::Residue;
use refusals::{Base, Refusal};
use std::alloc::AllocError;

// The values below p whose q-th power is neutral, with two of them, g and h.
// kept: q and p as two fields: as one of type `Parameters` they are read through one more name in each clause about a group, here and outside, and nothing gets shorter
#[derive(Copy)]
pub struct PrimeGroup<E: Modular> {
    pub(crate) q: u32,
    pub(crate) p: u32,
    pub(crate) g: E,
    pub(crate) h: E,
    ghost passed: { T (not (is_some (group_refusal E.ambient q p g h))) },
}

// The residues modulo p whose q-th power is 1.
pub type ResidueGroup = PrimeGroup<Residue>;

// The pairs of residues modulo p whose q-th power is (1, 0).
pub type CircleGroup = PrimeGroup<(Residue, Residue)>;

// Whether x is reduced and its q-th power is neutral.
fn is_element<E: Modular>(parameters: Parameters, x: E) -> bool
    ensures { result ≡ E.ambient.element parameters.q parameters.p x }
{
    let product = E::product_modulo(parameters);
    x.may_be_element(parameters) && power(&product, (), &x, parameters.q).is_neutral()
}

fn is_base<E: Modular>(parameters: Parameters, x: E) -> bool
    ensures { result ≡ base E.ambient parameters.q parameters.p x }
{
    is_element(parameters, x) && !x.is_neutral()
}

impl<E: Modular> PrimeGroup<E> {
    // The group of order q modulo p with the bases g and h, or why there is none.
    pub fn new(q: u32, p: u32, g: E, h: E) -> Result<PrimeGroup<E>, Refusal>
        ensures refuses { told result ≡ group_refusal E.ambient q p g h }
        ensures makes { IfOk result (λ s. (s.q ≡ q) × (s.p ≡ p) × (s.g ≡ g) × (s.h ≡ h)) }
    {
        let parameters = Parameters::new(q, p)?;
        if !E::fits(parameters) {
            return Err(Refusal::NoSuchGroup);
        }
        if !is_base(parameters, g) {
            return Err(Refusal::UnfitBase(Base::First));
        }
        if !is_base(parameters, h) {
            return Err(Refusal::UnfitBase(Base::Second));
        }
        Ok(PrimeGroup { q, p, g, h })
    }

    fn parameters(&self) -> Parameters
        ensures { (result.q ≡ self.now.q) × (result.p ≡ self.now.p) }
    {
        Parameters {
            q: self.q,
            p: self.p,
        }
    }
}

// kept: a clone by hand: a derive is refused over a ghost field where the type of an element is a parameter
impl<E: Modular> Clone for PrimeGroup<E> {
    ghost is_clone = { λ a b. b ≡ a };

    ghost is_infallible = { λ _. ⊤ };

    fn clone(&self) -> Result<Self, AllocError> {
        Ok(*self)
    }
}

impl<E: Modular> Monoid for PrimeGroup<E> {
    type Index = ();

    type Element = E;

    ghost monoid = { λ s _. group_elements E.ambient s.q s.p };

    ghost multiplies = { λ s _. group_monoid E.cut s.q s.p s.g s.h s.passed };

    fn neutral(&self, _at: ()) -> E {
        E::product_modulo(self.parameters()).neutral(())
    }

    fn product(&self, _at: (), a: &E, b: &E) -> E {
        E::product_modulo(self.parameters()).product((), a, b)
    }
}

impl<E: Modular> Group for PrimeGroup<E> {
    ghost group = { λ s. group_model E.ambient s.q s.p s.g s.h };

    ghost lawful = { λ s. group_laws E.cut s.q s.p s.g s.h s.passed };

    fn order(&self) -> u32 {
        self.q
    }

    fn g(&self) -> E {
        self.g
    }

    fn h(&self) -> E {
        self.h
    }

    fn to_words(&self, a: &E) -> (u32, u32) {
        a.to_words()
    }

    fn from_words(&self, words: (u32, u32)) -> Option<E> {
        E::from_words(words).filter(|x| is_element(self.parameters(), *x))
    }

    fn known_element(&self, words: (u32, u32)) -> E {
        E::from_words(words).unwrap()
    }
}
