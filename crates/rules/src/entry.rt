// The entries of a rule's table.
use bounded::Row;

pub(crate) const MOST_ITEMS: usize = 8;

// how many entries a text can begin before it is refused
const MOST_BEGUN: usize = 40;

// The positions of a gate's children, at most eight.
pub type Children = Row<u8, MOST_ITEMS>;

// A leaf has its key's number and the byte of the text at which its K stands;
// a gate wants `threshold` of its children.
#[derive(Clone, Copy)]
pub enum Entry {
    Leaf { key: u8, place: u8 },
    Gate { threshold: u8, children: Children },
}

// The entries read so far, and how many of them are leaves. A table that was read has at most 31; before its last
// gates close, a text that will be refused can have begun a few more.
// kept: leaves are counted as they come, since a count at each leaf would go through the list again
#[derive(Clone, Copy)]
pub struct Entries {
    pub(crate) list: Row<Entry, MOST_BEGUN>,
    pub(crate) keys: usize,
}
