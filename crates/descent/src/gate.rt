// Splitting at one gate of a rule.
ghost use Rattle.std.specs.Prelude.{ℕ, ◌-◌, ◌≤◌, ◌<◌, T, length, get_or};
ghost use Rattle.polynomials.specs.Polynomials.{Members};
ghost use Rattle.rules.specs.Views.{children_of};
ghost use Rattle.descent.specs.Descents.{AtGate};

use crate::rows::spread_out;
use fields::Field;
use rules::Children;
use splits::split_simulated;

// Splits at a gate: the first of its children get the shares, the others what balances it; no other entry changes.
pub fn split_gate<F: Field>(
    field: &F,
    threshold: usize,
    children: &Children,
    own: F::Element,
    shares: &[F::Element],
    challenges: &mut [F::Element],
)
    requires sizes { (threshold ≤ length (children_of children.now)) × ((length (children_of children.now) ≤ 8) × (length (children_of children.now) - threshold ≤ length shares.now)) }
    requires elements { let m = F.Field.model field.now in (T (m.member own)) × (Members m shares.now) }
    requires inside { (j : ℕ) → j < length (children_of children.now) → get_or (children_of children.now) j 0 < length challenges.old }
    requires rising { (i j : ℕ) → i < j → j < length (children_of children.now) → get_or (children_of children.now) i 0 < get_or (children_of children.now) j 0 }
    ensures { AtGate (F.Field.model field.now) threshold (children_of children.now) own shares.now challenges.old challenges.new }
{
    // kept: an array and its front: a row is not lent for writing, since the check covers no loan of a part of an array whose length is a parameter
    let mut room = [own; 8];
    let row = &mut room[..children.len()];
    let share = children.len() - threshold;
    row[..share].copy_from_slice(&shares[..share]);
    split_simulated(field, threshold, own, row);
    spread_out(children, row, challenges);
}
