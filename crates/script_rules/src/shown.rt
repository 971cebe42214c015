// How the replies to commands on rules are shown. Nothing is proved of it, so it asks whether a place is there.
// kept: casts by `as`: nothing is lost, as the check proves; behind a `From` a number is a new one to the proof, and a `TryFrom` has a refusal that never comes
use crate::answering::RuleReply;
use rules::{Entry, Table, spelled};
use std::fmt;

// A byte that is no printable ASCII is shown as `?`.
fn printable(byte: u8) -> char {
    match byte {
        b' '..=b'~' => byte.into(),
        _ => '?',
    }
}

fn write_bytes<W: fmt::Write>(f: &mut fmt::Formatter<W>, text: &[u8]) -> fmt::Result {
    for byte in text {
        let letter = printable(*byte);
        write!(f, "{letter}")?;
    }
    Ok(())
}

fn write_spaces<W: fmt::Write>(f: &mut fmt::Formatter<W>, count: u32) -> fmt::Result {
    for _ in 0..count {
        write!(f, " ")?;
    }
    Ok(())
}

// Notes that the children stand one further in than their gate.
fn note_depths(depths: &mut [u8], children: &[u8], depth: u8) {
    for position in children {
        if let Some(slot) = depths.get_mut(*position as usize) {
            *slot = depth.saturating_add(1);
        }
    }
}

fn write_entry<W: fmt::Write>(
    f: &mut fmt::Formatter<W>,
    entry: &Entry,
    position: usize,
) -> fmt::Result {
    match entry {
        Entry::Leaf { key, place: _ } => write!(f, "{position} K{key}"),
        Entry::Gate {
            threshold,
            children,
        } => {
            let count = children.len();
            write!(f, "{position} {threshold} of {count}:")?;
            for child in children.as_slice() {
                write!(f, " {child}")?;
            }
            Ok(())
        }
    }
}

// One line an entry, each two spaces further in than its gate.
fn write_entries<W: fmt::Write>(f: &mut fmt::Formatter<W>, entries: &[Entry]) -> fmt::Result {
    let mut depths = [0u8; 31];
    for (position, entry) in entries.iter().enumerate() {
        let depth = depths.get(position).copied().unwrap_or(0);
        write!(f, "\n")?;
        write_spaces(f, u32::from(depth).saturating_mul(2))?;
        write_entry(f, entry, position)?;
        if let Entry::Gate {
            threshold: _,
            children,
        } = entry
        {
            note_depths(&mut depths, children, depth);
        }
    }
    Ok(())
}

fn write_tree<W: fmt::Write>(f: &mut fmt::Formatter<W>, table: &Table) -> fmt::Result {
    write!(f, "rule ")?;
    write_bytes(f, &spelled(table))?;
    let entries = table.len();
    let leaves = table.leaf_count();
    write!(f, " entries {entries} leaves {leaves}")?;
    write_entries(f, table.entries())
}

impl fmt::Display for RuleReply {
    fn fmt<W: fmt::Write>(&self, f: &mut fmt::Formatter<W>) -> fmt::Result {
        match self {
            RuleReply::Tree(table) => write_tree(f, table),
            RuleReply::Faulty(why, None) => write!(f, "{why}"),
            RuleReply::Faulty(why, Some(text)) => {
                write!(f, "{why}\n")?;
                write_bytes(f, text)?;
                write!(f, "\n")?;
                write_spaces(f, why.place())?;
                write!(f, "^")
            }
            RuleReply::Text(text) => {
                write!(f, "text ")?;
                write_bytes(f, text)
            }
            RuleReply::Split(challenges) => write!(f, "{challenges}"),
        }
    }
}
