// Splitting down a whole rule, entry by entry.
// kept: casts by `as`: nothing is lost, as the check proves; behind a `From` a number is a new one to the proof, and a `TryFrom` has a refusal that never comes
ghost use Rattle.std.specs.Prelude.{◌≡◌, ℕ, ◌≤◌, ◌<◌, T, length, get_or};
ghost use Rattle.polynomials.specs.Polynomials.{Members};
ghost use Rattle.rules.specs.Texts.{rows_in};
ghost use Rattle.rules.specs.Views.{row_of};
ghost use Rattle.descent.specs.Descents.{share_size, before, Descends};

use crate::gate::split_gate;
use fields::Field;
use rules::{Entry, Table};

// kept: a loop and not the library's `fill`, which asks that a clone of an element cannot fail: nothing says so of an element that is only known to be copied
fn fill<E: Copy>(x: E, to: &mut [E])
    ensures { (j : ℕ) (d : E) → j < length to.new → get_or to.new j d ≡ x }
{
    for entry in to.iter_mut() {
        *entry = x;
    }
}

// How many scalars an entry takes from the shares.
#[tactic(auto, unfolding(rules::specs::Views::row_of))]
fn share(entry: &Entry) -> usize
    ensures is { result ≡ share_size (row_of entry.now) }
    ensures few { result ≤ 8 }
{
    match entry {
        Entry::Leaf { .. } => 0,
        Entry::Gate {
            threshold,
            children,
        } => children.len().saturating_sub(*threshold as usize),
    }
}

// How many scalars the gates of a rule take from the shares.
pub fn share_count(table: &Table) -> usize
    ensures { result ≡ before (rows_in table.now) (length (rows_in table.now)) }
{
    table.entries().iter().map(share).sum()
}

// Splits a challenge down a rule, every gate as a simulated one: a gate's share gives its first children's challenges.
pub fn split_down<F: Field>(
    field: &F,
    table: &Table,
    challenge: F::Element,
    shares: &[F::Element],
    challenges: &mut [F::Element],
)
    requires sizes { (length challenges.old ≡ length (rows_in table.now)) × (before (rows_in table.now) (length (rows_in table.now)) ≤ length shares.now) }
    requires elements { let m = F.Field.model field.now in (T (m.member challenge)) × (Members m shares.now) }
    ensures { Descends (F.Field.model field.now) (rows_in table.now) challenge shares.now challenges.new }
{
    fill(challenge, challenges);
    let mut used = 0;
    for (i, entry) in table.entries().iter().enumerate() {
        if let Entry::Gate {
            threshold,
            children,
        } = entry
        {
            let own = challenges[i];
            split_gate(
                field,
                *threshold as usize,
                children,
                own,
                &shares[used..],
                challenges,
            );
        }
        used += share(entry);
    }
}
