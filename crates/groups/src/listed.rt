// The numbers that groups are made of.
ghost use Rattle.std.specs.Prelude.{◌≡◌, ◌≤◌, IfOk};
ghost use Rattle.refusals.specs.Checks.{told};
ghost use Rattle.groups.specs.Listed.{listed_order, listed_modulus, number_refusal};
ghost use Rattle.fields.specs.Primes.{in_range};

use refusals::{Parameter, Refusal};

// An order q and a modulus p that groups are made of, with the bounds that their products stand on.
#[derive(Clone, Copy)]
pub struct Parameters {
    pub(crate) q: u32,
    pub(crate) p: u32,
    ghost order: { 11 ≤ q },
    ghost low: { 11 ≤ p },
    ghost high: { p ≤ 2147483647 },
}

fn in_range(n: u32) -> bool
    ensures { result ≡ in_range n }
{
    (11..=2147483647).contains(&n)
}

fn listed_order(q: u32) -> bool
    ensures { result ≡ listed_order q }
{
    matches!(q, 11 | 13 | 331 | 166667)
}

fn listed_modulus(p: u32) -> bool
    ensures { result ≡ listed_modulus p }
{
    matches!(
        p,
        23 | 43 | 53 | 103 | 2647 | 1000003 | 2000003 | 2147483647
    )
}

impl Parameters {
    // The two numbers; refused where no group has such an order or modulus.
    pub fn new(q: u32, p: u32) -> Result<Parameters, Refusal>
        ensures refuses { told result ≡ number_refusal q p }
        ensures makes { IfOk result (λ s. (s.q ≡ q) × (s.p ≡ p)) }
    {
        if !in_range(q) {
            return Err(Refusal::OutOfRange(Parameter::Order));
        }
        if !in_range(p) {
            return Err(Refusal::OutOfRange(Parameter::Modulus));
        }
        if !listed_order(q) {
            return Err(Refusal::NotListed(Parameter::Order));
        }
        if !listed_modulus(p) {
            return Err(Refusal::NotListed(Parameter::Modulus));
        }
        Ok(Parameters { q, p })
    }
}
