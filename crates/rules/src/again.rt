// Reading and writing undo each other.
ghost use Rattle.std.specs.Prelude.{◌≡◌, MatchResult};
ghost use Rattle.rules.specs.Texts.{rows_in, Unfit, UnfitCopy};

use crate::reading::read;
use crate::table::Table;
use crate::writing::write;
use refusals::Refusal;

// Reads a text and writes it again: what is written is the text.
// A refusal leaves the output as it was.
pub fn rewrite(text: &[u8], out: &mut [u8]) -> Result<(), Refusal>
    ensures { MatchResult result (λ _. out.new ≡ text.now) (λ x. UnfitCopy text.now out.old out.new x) }
{
    let table = read(text)?;
    write(&table, out)
}

// Writes a table and reads it again: what is read is the table.
// Only an output of another length than the text is refused, and left as it was.
pub fn reread(table: &Table, out: &mut [u8]) -> Result<Table, Refusal>
    ensures { MatchResult result (λ t. rows_in t ≡ rows_in table.now) (λ x. Unfit (rows_in table.now) out.old out.new x) }
{
    write(table, out)?;
    read(out)
}
