// Pairing a rule with a ring: each leaf gets the line of its key's number.
ghost use Rattle.std.specs.Prelude.{◌≡◌, IfOk};
ghost use Rattle.refusals.specs.Checks.{told};
ghost use Rattle.rules.specs.Texts.{rows_in};
ghost use Rattle.rings.specs.Rings.{lines_in};
ghost use Rattle.rings.specs.Pairings.{pair_refusal, paired};

use crate::line::{Line, Lines, find_line};
use refusals::Refusal;
use rules::{Entry, Table};

// The lines of the leaves, in their order; refused at the first leaf whose number stands in no line.
pub fn pair(table: &Table, ring: &Lines) -> Result<Lines, Refusal>
    ensures refuses { told result ≡ pair_refusal (rows_in table.now) (lines_in ring.now) }
    ensures pairs { IfOk result (λ lines. lines_in lines ≡ paired (rows_in table.now) (lines_in ring.now)) }
{
    let mut lines = Lines::blank(Line::default());
    for entry in table.entries() {
        if let Entry::Leaf { key, place } = entry {
            let line = find_line(ring, *key).ok_or(Refusal::NotInRing(*place))?;
            lines.push(line);
        }
    }
    Ok(lines)
}
