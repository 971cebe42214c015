// Rows of at most eight entries, one for each child of a gate.
// kept: casts by `as`: nothing is lost, as the check proves; behind a `From` a number is a new one to the proof, and a `TryFrom` has a refusal that never comes
ghost use Rattle.std.specs.Prelude.{◌≡◌, ◌<◌, ◌≤◌, ◌∷◌, length};
ghost use Rattle.bounded.specs.Rows.{items};
ghost use Rattle.splits.specs.Marks.{marked, First, points_from};

use bounded::Row;
use fields::Field;

// The gate itself stands at point 0.
const FIRST_CHILD: u8 = 1;

// The points at which the children stand.
pub fn child_points<F: Field>(field: &F) -> [F::Element; 8]
    ensures { result ≡ points_from (F.Field.model field.now) 1 8 }
{
    std::array::from_fn(|j: usize| field.point(FIRST_CHILD + j as u8))
}

// Marks on the first children.
pub fn first(count: usize) -> [bool; 8]
    requires { count ≤ 8 }
    ensures size { length result ≡ 8 }
    ensures first { First result count }
{
    let mut marks = [false; 8];
    marks[..count].fill(true);
    marks
}

// A first entry, and behind it the marked entries of a row.
pub fn pick<E: Copy>(first: E, marks: &[bool], row: &[E]) -> Row<E, 9>
    requires { (length marks.now ≡ length row.now) × (length row.now ≤ 8) }
    ensures { items result ≡ first ∷ marked marks.now row.now }
{
    let mut picked = Row::of(first, &[first]);
    for (entry, is_marked) in row.iter().zip(marks) {
        if *is_marked {
            picked.push(*entry);
        }
    }
    picked
}
