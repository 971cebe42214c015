// Whether the challenges of a rule balance its gates.
// kept: casts by `as`: nothing is lost, as the check proves; behind a `From` a number is a new one to the proof, and a `TryFrom` has a refusal that never comes
ghost use Rattle.std.specs.Prelude.{◌≡◌, ℕ, ◌<◌, ◌≤◌, T, map, length, get_or, nat_lt, slice_index, slice_index_or};
ghost use Rattle.refusals.specs.Checks.{told};
ghost use Rattle.fields.specs.Scalars.{scalar, scalars_model};
ghost use Rattle.polynomials.specs.Polynomials.{Members};
ghost use Rattle.rules.specs.Views.{children_of};
ghost use Rattle.splits.specs.Gates.{Balanced};
ghost use Rattle.releases.specs.Transcripts.{is_scalar};
ghost use Rattle.releases.specs.Checks.{Clear};
ghost use Rattle.settings.specs.Rules.{rule_in};
ghost use Rattle.checking.specs.Checkings.{GatesChecked};

use crate::checker::Checker;
use bounded::Row;
use fields::{Scalar, Scalars};
use kinds::LeafKinds;
use refusals::Refusal;
use rules::Children;
use settings::Node;
use splits::balances;

// Whether a gate with this challenge of its own balances, among the challenges of all entries.
fn gate_balances(
    field: &Scalars,
    threshold: usize,
    children: &Children,
    own: Scalar,
    challenges: &[Scalar],
) -> bool
    requires sizes { (threshold ≤ length (children_of children.now)) × (length (children_of children.now) ≤ 8) }
    requires elements { (T (nat_lt own.0 field.now.q)) × (Members (scalars_model field.now.q) challenges.now) }
    requires inside { (j : ℕ) → j < length (children_of children.now) → slice_index (children_of children.now) j < length challenges.now }
    ensures { let gate = Balanced (scalars_model field.now.q) threshold own (map (λ p. get_or challenges.now p (scalar 0)) (children_of children.now)) in (T result → gate) × (gate → T result) }
{
    let mut row: Row<Scalar, 8> = Row::blank(own);
    // kept: a loop; a row's `map` asks for a function that may be called with every position, and this one takes those inside.
    for position in children.as_slice() {
        row.push(challenges[*position as usize]);
    }
    balances(field, threshold, own, &row)
}

impl<S: LeafKinds> Checker<'_, S> {
    // Refuses the first gate that does not balance.
    pub fn check_gates(&self, challenges: &[Scalar]) -> Result<(), Refusal>
        requires long { length challenges.now ≡ length (rule_in self.now.rule.now) }
        requires scalars { (i : ℕ) → i < length (rule_in self.now.rule.now) → T (is_scalar (S.LeafKinds.meaning self.now.set.now) (slice_index_or challenges.now i (scalar 0))) }
        ensures { GatesChecked (S.LeafKinds.meaning self.now.set.now) (rule_in self.now.rule.now) (λ i. get_or challenges.now i (scalar 0)) Clear (told result) }
    {
        let field = Scalars::known(self.set.order());
        for (i, node) in self.rule.nodes().iter().enumerate() {
            if let Node::Gate {
                threshold,
                children,
            } = *node
            {
                if !gate_balances(
                    &field,
                    threshold as usize,
                    &children,
                    challenges[i],
                    challenges,
                ) {
                    return Err(Refusal::Unbalanced(i as u8));
                }
            }
        }
        Ok(())
    }
}
