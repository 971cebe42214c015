// Writes the text of a rule from its table.
// kept: casts by `as`: nothing is lost, as the check proves; behind a `From` a number is a new one to the proof, and a `TryFrom` has a refusal that never comes
ghost use Rattle.std.specs.Prelude.{◌≡◌, ◌+◌, ◌<◌, ◌≤◌, [], ◌∷◌, ◌++◌, length, map, MatchResult};
ghost use Rattle.bounded.specs.Rows.{items};
ghost use Rattle.rules.specs.Grammar.{decimal, opening};
ghost use Rattle.rules.specs.Views.{row_of};
ghost use Rattle.rules.specs.WriterSteps.{mark_at, CanSpell, Spelt, CanSpellItems, ItemsSpelt};
ghost use Rattle.rules.specs.Texts.{rows_in, Written, TextHasLength, Unfit};

use crate::entry::Entry;
use crate::reading::{MOST_BYTES, MOST_DEPTH};
use crate::table::Table;
use bounded::Row;
use refusals::Refusal;

// A text as it is written.
pub type Text = Row<u8, MOST_BYTES>;

// kept: digits by hand: the library writes numbers to formatters, which may fail
#[tactic(auto, unfolding(crate::specs::Grammar::decimal))]
fn spell_number(n: u8, text: &mut Text)
    requires { length (items text.old) + length (decimal n) ≤ 240 }
    ensures { items text.new ≡ items text.old ++ decimal n }
{
    if n < 10 {
        text.push(b'0' + n);
    } else if n < 100 {
        text.extend_from_slice(&[b'0' + n / 10, b'0' + n % 10]);
    } else {
        text.extend_from_slice(&[b'0' + n / 100, b'0' + n / 10 % 10, b'0' + n % 10]);
    }
}

// How a gate that wants k of n items begins.
#[tactic(auto, unfolding(crate::specs::Grammar::opening))]
fn spell_opening(k: u8, n: usize, text: &mut Text)
    requires { (k ≤ n) × ((n ≤ 8) × (length (items text.old) + 3 ≤ 240)) }
    ensures { items text.new ≡ items text.old ++ opening k n }
{
    if k == 1 {
        text.extend_from_slice(b"any");
    } else if k as usize == n {
        text.extend_from_slice(b"all");
    } else {
        text.extend_from_slice(&[b'0' + k, b'o', b'f']);
    }
}

// The bracket before a gate's first item, or the comma before another.
fn spell_mark(i: usize, text: &mut Text)
    requires { length (items text.old) < 240 }
    ensures { items text.new ≡ items text.old ++ mark_at i ∷ [] }
{
    text.push(if i == 0 { b'(' } else { b',' });
}

// The item whose first entry stands at a position.
#[cycle(spell_spell_items)]
fn spell(entries: &[Entry], position: usize, depth: u8, text: &mut Text)
    requires { CanSpell (map row_of entries.now) position depth (items text.old) }
    ensures { Spelt (map row_of entries.now) position depth (items text.old) (items text.new) }
{
    match &entries[position] {
        Entry::Leaf { key, place: _ } => {
            text.push(b'K');
            spell_number(*key, text);
        }
        Entry::Gate {
            threshold,
            children,
        } => {
            spell_opening(*threshold, children.len(), text);
            spell_items(entries, children, depth - 1, text);
            text.push(b')');
        }
    }
}

// The items of a gate, the first after its bracket and the others each after a comma.
#[cycle(spell_spell_items)]
fn spell_items(entries: &[Entry], children: &[u8], depth: u8, text: &mut Text)
    requires { CanSpellItems (map row_of entries.now) children.now 40 depth (items text.old) }
    ensures { ItemsSpelt (map row_of entries.now) children.now 40 depth (items text.old) (items text.new) }
{
    for (i, child) in children.iter().enumerate() {
        spell_mark(i, text);
        spell(entries, *child as usize, depth, text);
    }
}

// The text of a table.
pub fn spelled(table: &Table) -> Text
    ensures { Written (rows_in table.now) (items result) }
{
    let mut text = Text::blank(0);
    spell(table.entries(), 0, MOST_DEPTH, &mut text);
    text
}

// How many bytes the text of a table has.
pub fn text_length(table: &Table) -> usize
    ensures { TextHasLength (rows_in table.now) result }
{
    spelled(table).len()
}

// Writes the text of a table into an output of exactly its length.
// An output of another length is refused, and left as it was.
pub fn write(table: &Table, out: &mut [u8]) -> Result<(), Refusal>
    ensures { MatchResult result (λ _. Written (rows_in table.now) out.new) (λ x. Unfit (rows_in table.now) out.old out.new x) }
{
    let text = spelled(table);
    if out.len() != text.len() {
        return Err(Refusal::OutputLength);
    }
    out.copy_from_slice(&text);
    Ok(())
}
