// Gates over the scalars, made from plain numbers.
// kept: casts by `as`: nothing is lost, as the check proves; behind a `From` a number is a new one to the proof, and a `TryFrom` has a refusal that never comes
ghost use Rattle.std.specs.Prelude.{◌≡◌, ◌<◌, ◌≤◌, T, length, nat_lt};
ghost use Rattle.fields.specs.Scalars.{scalars_model};
ghost use Rattle.polynomials.specs.Polynomials.{Members};

use crate::lagrange::lagrange;
use fields::{Scalar, Scalars};
use splits::{balances, split};

// The numbers modulo q.
fn scalars(field: &Scalars, values: [u32; 8]) -> [Scalar; 8]
    ensures size { length result ≡ 8 }
    ensures elements { Members (scalars_model field.now.q) result }
{
    let q = field.order();
    values.map(|value| Scalar::new(value % q))
}

// The marks that the bits of a number are.
fn marks(bits: u32) -> [bool; 8]
    ensures { length result ≡ 8 }
{
    std::array::from_fn(|j: usize| bits >> j as u32 & 1 != 0)
}

// How many are not marked.
fn unknown(known: &[bool]) -> usize
    ensures { result ≤ length known.now }
{
    known.iter().filter(|mark| !**mark).count()
}

// The gate with n children of which the marked are known.
pub fn split_values(
    field: &Scalars,
    n: usize,
    own: u32,
    known: u32,
    values: [u32; 8],
) -> [Scalar; 8]
    requires { n ≤ 8 }
{
    let own = Scalar::new(own % field.order());
    let known = marks(known);
    let mut children = scalars(field, values);
    split(field, own, &known[..n], &mut children[..n]);
    children
}

// Whether every child has what Lagrange's formula gives.
fn agrees(q: u64, own: Scalar, known: &[bool], given: &[Scalar], children: &[Scalar]) -> bool
    requires { (0 < q) × ((length known.now ≤ 8) × (length given.now ≡ length known.now)) }
{
    let mut challenges: [Option<u32>; 9] = [None; 9];
    challenges[0] = Some(own.value());
    let children_known = known.iter().zip(given);
    for (challenge, (known, child)) in challenges[1..].iter_mut().zip(children_known) {
        *challenge = known.then_some(child.value());
    }
    same_as(q, &challenges, children)
}

fn same_as(q: u64, challenges: &[Option<u32>], children: &[Scalar]) -> bool
    requires { 0 < q }
{
    children.iter().enumerate().all(|(j, child)| {
        u64::from(child.value()) == lagrange(q, challenges, (j as u64).wrapping_add(1))
    })
}

// Whether the check refuses the gate with any one child changed.
fn changes_refused(field: &Scalars, k: usize, own: Scalar, children: &mut [Scalar]) -> bool
    requires { (k ≤ length children.old) × ((length children.old ≤ 8) × ((T (nat_lt own.0 field.now.q)) × (Members (scalars_model field.now.q) children.old))) }
{
    let q = field.order();
    // kept: j is the place of the one child that is changed while all are judged
    for j in 0..children.len() {
        let kept = children[j];
        children[j] = Scalar::new(kept.value().wrapping_add(1) % q);
        if balances(field, k, own, children) {
            return false;
        }
        children[j] = kept;
    }
    true
}

// Whether the split of the gate is Lagrange's, balances, and does not with a child changed.
fn holds(field: &Scalars, n: usize, own: u32, known: u32, values: [u32; 8]) -> bool
    requires { n ≤ 8 }
{
    let own = Scalar::new(own % field.order());
    let known = marks(known);
    let known = &known[..n];
    let given = scalars(field, values);
    let mut room = given;
    let children = &mut room[..n];
    split(field, own, known, children);
    let k = unknown(known);
    agrees(u64::from(field.order()), own, known, &given[..n], children)
        && balances(field, k, own, children)
        && (k == 0 || changes_refused(field, k, own, children))
}

// The same of every gate with two to eight children, whichever are known.
pub fn every_gate(field: &Scalars, own: u32, values: [u32; 8]) -> bool {
    (2..9usize).all(|n| (0..1u32 << n as u32).all(|known| holds(field, n, own, known, values)))
}
