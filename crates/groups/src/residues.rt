// The residues modulo p: what residue groups are cut from.
ghost use Rattle.std.specs.Prelude.{◌≡◌, ◌<◌, ◌≤◌, MatchOption};
ghost use Rattle.groups.specs.Residues.{residues_modulo, residues};
ghost use Rattle.groups.specs.ResidueLaws.{residues_laws, residues_cut};

use crate::listed::Parameters;
use crate::modular::Modular;
use crate::monoid::Monoid;
use crate::residue::Residue;

// The numbers below p.
#[derive(Clone, Copy)]
pub struct Residues {
    p: u32,
    ghost low: { 1 < p },
}

impl Residues {
    // The numbers below p; none where p is below 2.
    pub fn new(p: u32) -> Option<Residues>
        ensures { MatchOption result (p ≤ 1) (λ s. s.p ≡ p) }
    {
        // kept: `then_some` would make the value before the test that it stands by, and the closure of `then` needs a `requires` of its own
        if p > 1 { Some(Residues { p }) } else { None }
    }
}

impl Monoid for Residues {
    type Index = ();

    type Element = Residue;

    ghost monoid = { λ s _. residues_modulo s.p };

    ghost multiplies = { λ s _. residues_laws s.p s.low };

    fn neutral(&self, _at: ()) -> Residue {
        Residue::new(1)
    }

    fn product(&self, _at: (), a: &Residue, b: &Residue) -> Residue {
        Residue::new(fields::product_modulo(self.p, a.value(), b.value()))
    }
}

impl Modular for Residue {
    type Product = Residues;

    ghost ambient = { residues };

    ghost cut = { residues_cut };

    fn product_modulo(parameters: Parameters) -> Residues {
        Residues { p: parameters.p }
    }

    fn fits(parameters: Parameters) -> bool {
        (parameters.p - 1) % parameters.q == 0
    }

    fn is_reduced(self, p: u32) -> bool {
        self.value() < p
    }

    // No power of 0 is 1.
    fn may_be_element(self, parameters: Parameters) -> bool {
        self.value() != 0 && self.is_reduced(parameters.p)
    }

    fn is_neutral(self) -> bool {
        self == Residue::new(1)
    }

    fn to_words(self) -> (u32, u32) {
        (self.value(), 0)
    }

    fn from_words(words: (u32, u32)) -> Option<Residue> {
        (words.1 == 0).then_some(Residue::new(words.0))
    }
}
