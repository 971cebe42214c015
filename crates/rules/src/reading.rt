// Reads a rule's text by recursive descent: an item calls the reader of a gate's items and back, the depth left falling.
// kept: casts by `as`: nothing is lost, as the check proves; behind a `From` a number is a new one to the proof, and a `TryFrom` has a refusal that never comes
ghost use Rattle.std.specs.Prelude.{◌≡◌, ◌+◌, ◌<◌, [], MatchResult, Some, slice_get, slice_index};
ghost use Rattle.rules.specs.ReaderSteps.{Room, ItemRead, Items, ItemsRefused, Begins};
ghost use Rattle.rules.specs.Texts.{rows_in, Read, Faulty};
ghost use Rattle.rules.specs.Views.{children_of};

use crate::entry::{Children, Entries, Entry, MOST_ITEMS};
use crate::letters::Letters;
use crate::table::Table;
use bounded::Row;
use refusals::Refusal;

pub(crate) const MOST_BYTES: usize = 240;

const MOST_KEYS: usize = 16;

pub(crate) const MOST_DEPTH: u8 = 8;

// A rule's text as it is read, and the entries read so far.
// kept: `Room` at each method: it speaks of the depth left, which is no field
#[derive(Drop)]
pub struct Reader<'a> {
    pub(crate) letters: Letters<'a>,
    pub(crate) entries: Entries,
}

impl<'a> Reader<'a> {
    fn leaf(&mut self, depth: u8) -> Result<(), Refusal>
        requires room { Room depth self.old.entries }
        requires is { slice_get self.old.letters.text.now self.old.letters.at ≡ Some 75 }
        ensures same { self.new.letters.text ≡ self.old.letters.text }
        ensures read { ItemRead self.old.letters.text.now self.old.letters.at depth self.old.entries self.new.entries self.new.letters.at result }
    {
        let place = self.letters.at;
        if depth == 0 {
            return Err(Refusal::TooDeep(place));
        }
        if self.entries.keys == MOST_KEYS {
            return Err(Refusal::TooManyKeys(place));
        }
        self.letters.at += 1;
        let key = self.letters.number()?;
        self.entries.list.push(Entry::Leaf { key, place });
        self.entries.keys += 1;
        Ok(())
    }

    #[cycle(gate_item_items)]
    fn item(&mut self, depth: u8) -> Result<(), Refusal>
        requires { Room depth self.old.entries }
        ensures same { self.new.letters.text ≡ self.old.letters.text }
        ensures read { ItemRead self.old.letters.text.now self.old.letters.at depth self.old.entries self.new.entries self.new.letters.at result }
    {
        match self.letters.peek() {
            Some('K') => self.leaf(depth),
            Some('a' | '0'..='9') => self.gate(depth),
            _ => Err(Refusal::Unexpected(self.letters.at)),
        }
    }

    #[cycle(gate_item_items)]
    fn gate(&mut self, depth: u8) -> Result<(), Refusal>
        requires room { Room depth self.old.entries }
        requires is { Begins (slice_index self.old.letters.text.now self.old.letters.at) }
        ensures same { self.new.letters.text ≡ self.old.letters.text }
        ensures read { ItemRead self.old.letters.text.now self.old.letters.at depth self.old.entries self.new.entries self.new.letters.at result }
    {
        if depth == 0 {
            return Err(Refusal::TooDeep(self.letters.at));
        }
        let head = self.letters.heading()?;
        let position = self.entries.list.len();
        // its row is kept free until its children are known
        self.entries.list.push(Entry::Leaf { key: 0, place: 0 });
        let children = self.items(depth - 1)?;
        let count = children.len() as u8;
        if !head.may_close(count) {
            return Err(Refusal::TooFewItems(self.letters.at));
        }
        self.letters.at += 1;
        let threshold = head.wanted(count);
        self.entries.list.set(
            position,
            Entry::Gate {
                threshold,
                children,
            },
        );
        Ok(())
    }

    // A gate's items, up to the place of its `)`.
    #[cycle(gate_item_items)]
    fn items(&mut self, depth: u8) -> Result<Children, Refusal>
        requires { Room depth self.old.entries }
        ensures same { self.new.letters.text ≡ self.old.letters.text }
        ensures read { MatchResult result (λ children. Items self.old.letters.text.now self.old.letters.at depth [] (children_of children) self.old.entries self.new.entries self.new.letters.at) (λ x. ItemsRefused self.old.letters.text.now self.old.letters.at depth 0 self.old.entries.keys x) }
    {
        let mut children = Children::blank(0);
        loop {
            children.push(self.entries.list.len() as u8);
            self.item(depth)?;
            match self.letters.peek() {
                Some(',') => {
                    if children.len() == MOST_ITEMS {
                        return Err(Refusal::TooManyItems(self.letters.at));
                    }
                    self.letters.at += 1;
                }
                Some(')') => return Ok(children),
                _ => return Err(Refusal::Unexpected(self.letters.at)),
            }
        }
    }
}

// Reads a rule's text, whatever its bytes.
// Returns the table of the rule, or the first fault from left to right.
pub fn read(text: &[u8]) -> Result<Table, Refusal>
    ensures { MatchResult result (λ t. Read text.now (rows_in t)) (λ x. Faulty text.now x) }
{
    if text.is_empty() || text.len() > MOST_BYTES {
        return Err(Refusal::TextLength);
    }
    let mut reader = Reader {
        letters: Letters { text, at: 0 },
        entries: Entries {
            list: Row::blank(Entry::Leaf { key: 0, place: 0 }),
            keys: 0,
        },
    };
    reader.item(MOST_DEPTH)?;
    let end = reader.letters.at;
    if (end as usize) < text.len() {
        return Err(Refusal::Unexpected(end));
    }
    Ok(Table {
        entries: reader.entries,
    })
}
