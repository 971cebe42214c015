// Moving values between a row of children and the entries of a rule.
ghost use Rattle.std.specs.Prelude.{◌≡◌, ℕ, ◌<◌, length, get_or};
ghost use Rattle.descent.specs.Rows.{SpreadOut};

// Puts the entries of a row at some positions.
pub fn spread_out<E: Copy>(positions: &[u8], row: &[E], to: &mut [E])
    requires long { length row.now ≡ length positions.now }
    requires inside { (j : ℕ) → j < length positions.now → get_or positions.now j 0 < length to.old }
    requires rising { (i j : ℕ) → i < j → j < length positions.now → get_or positions.now i 0 < get_or positions.now j 0 }
    ensures { SpreadOut positions.now row.now to.old to.new }
{
    // kept: `as usize`, not `usize::from`: behind that call the place is a new number, which each step of the proof would have to lead back
    for (position, x) in positions.iter().zip(row) {
        to[*position as usize] = *x;
    }
}
