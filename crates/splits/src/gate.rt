// Splitting the challenge of a gate: its own and the known children's give the others.
ghost use Rattle.std.specs.Prelude.{◌≡◌, ℕ, ◌-◌, ◌<◌, ◌≤◌, false, T, List, length, get_or, if◌then◌else◌, slice_index_or};
ghost use Rattle.polynomials.specs.Polynomials.{Members, newton};
ghost use Rattle.splits.specs.Gates.{Balanced, Agree, AgreeFirst};
ghost use Rattle.splits.specs.Marks.{missing};

use crate::rows::{child_points, first, pick};
use fields::Field;
use polynomials::{interpolate, value};

// Gives each child that is not known the value at its point.
fn fill<F: Field>(
    field: &F,
    nodes: &[F::Element],
    coefficients: &[F::Element],
    points: &[F::Element],
    known: &[bool],
    children: &mut [F::Element],
)
    requires sizes { (length nodes.now ≡ length coefficients.now) × ((0 < length nodes.now) × ((length known.now ≡ length children.old) × (length points.now ≡ length children.old))) }
    requires elements { let m = F.Field.model field.now in (Members m nodes.now) × ((Members m coefficients.now) × (Members m points.now)) }
    ensures { let m = F.Field.model field.now in ((j : ℕ) → j < length children.old → slice_index_or children.new j m.zero ≡ (if get_or known.now j false then slice_index_or children.old j m.zero else newton m nodes.now coefficients.now (slice_index_or points.now j m.zero))) }
{
    // kept: j for `known` and `points`: behind a `zip` of `iter_mut` a proof knows nothing of what was written
    for (j, child) in children.iter_mut().enumerate() {
        if !known[j] {
            *child = value(field, nodes, coefficients, points[j]);
        }
    }
}

// Splits the own challenge of a gate: keeps the challenges of the known children and writes the others'. The gate wants as many children as are not known.
// With n children of which d are known: d quotients, and d * n products besides.
// kept: marks beside the children, not options: a simulated gate knows its first children by place alone, and what is kept is said by the marks
pub fn split<F: Field>(field: &F, own: F::Element, known: &[bool], children: &mut [F::Element])
    requires sizes { (length known.now ≡ length children.old) × (length children.old ≤ 8) }
    requires elements { let m = F.Field.model field.now in (T (m.member own)) × (Members m children.old) }
    ensures elements { Members (F.Field.model field.now) children.new }
    ensures balanced { Balanced (F.Field.model field.now) (missing known.now) own children.new }
    ensures kept { Agree (F.Field.model field.now) known.now children.new children.old }
    ensures only { let m = F.Field.model field.now in ((others : List F.Element) → length others ≡ length children.old → Balanced m (missing known.now) own others → Agree m known.now others children.old → others ≡ children.new) }
{
    let points = child_points(field);
    let points = &points[..children.len()];
    let nodes = pick(field.point(0), known, points);
    let values = pick(own, known, children);
    let (nodes, values) = (nodes.as_slice(), values.as_slice());
    // kept: an array and its front: a row is not lent for writing, since the check covers no loan of a part of an array whose length is a parameter
    let mut room = [own; 9];
    let coefficients = &mut room[..values.len()];
    coefficients.copy_from_slice(values);
    interpolate(field, nodes, coefficients);
    fill(field, nodes, coefficients, points, known, children);
}

// Splits the own challenge of a gate that wants k of its children and of which the first n - k are known, as a simulated gate's are.
pub fn split_simulated<F: Field>(field: &F, k: usize, own: F::Element, children: &mut [F::Element])
    requires sizes { (k ≤ length children.old) × (length children.old ≤ 8) }
    requires elements { let m = F.Field.model field.now in (T (m.member own)) × (Members m children.old) }
    ensures elements { Members (F.Field.model field.now) children.new }
    ensures balanced { Balanced (F.Field.model field.now) k own children.new }
    ensures kept { AgreeFirst (F.Field.model field.now) (length children.old - k) children.new children.old }
    ensures only { let m = F.Field.model field.now in ((others : List F.Element) → length others ≡ length children.old → Balanced m k own others → AgreeFirst m (length children.old - k) others children.old → others ≡ children.new) }
{
    let n = children.len();
    let known = first(n - k);
    split(field, own, &known[..n], children);
}
