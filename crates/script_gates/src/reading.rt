// Commands on gates, read from the words of a line.
ghost use Rattle.std.specs.Prelude.{◌≤◌, IfOk};

use crate::gate::{Gate, GateCommand};
use bounded::Row;
use words::{Expected, Fault, Words, number};

// The second word of a command on gates.
// kept: an enum, and no functions that are handed about: it is the second word of a line, read in one place
#[derive(Clone, Copy, PartialEq, Eq, Debug)]
pub enum Verb {
    Split,
    Complete,
    Check,
}

fn read_verb(word: &[u8]) -> Option<Verb> {
    match word {
        b"split" => Some(Verb::Split),
        b"complete" => Some(Verb::Complete),
        b"check" => Some(Verb::Check),
        _ => None,
    }
}

// A number from 1 to `most`.
fn read_count(words: &mut Words, most: u32, expected: Expected) -> Result<u32, Fault>
    ensures { IfOk result (λ n. (1 ≤ n) × (n ≤ most)) }
{
    let place = words.place();
    let count = words.number()?;
    if (1..=most).contains(&count) {
        Ok(count)
    } else {
        Err(Fault { place, expected })
    }
}

// A child whose number is known; one that may be left open is so by `-`.
fn read_child(words: &mut Words, open: bool) -> Result<Option<u32>, Fault> {
    let expected = if open {
        Expected::NumberOrDash
    } else {
        Expected::Number
    };
    words.read(expected, |word| match word {
        b"-" if open => Some(None),
        _ => number(word).map(Some),
    })
}

// Children to the end of the line, at least one.
fn read_children(words: &mut Words, open: bool) -> Result<Row<Option<u32>, 8>, Fault> {
    let mut children = Row::of(None, &[read_child(words, open)?]);
    while children.len() < 8 && words.end().is_err() {
        children.push(read_child(words, open)?);
    }
    words.end()?;
    Ok(children)
}

fn read_split(words: &mut Words) -> Result<GateCommand, Fault> {
    let q = words.number()?;
    let count = read_count(words, 8, Expected::Children)?;
    let wanted = read_count(words, count, Expected::Wanted)?;
    let place = words.place();
    let own = words.number()?;
    let mut children = Row::blank(None);
    for _ in wanted..count {
        children.push(Some(words.number()?));
    }
    for _ in 0..wanted {
        children.push(None);
    }
    words.end()?;
    Ok(GateCommand::Fill(Gate {
        q,
        own,
        place,
        children,
    }))
}

fn read_complete(words: &mut Words) -> Result<GateCommand, Fault> {
    let q = words.number()?;
    let place = words.place();
    let own = words.number()?;
    let first = words.place();
    let children = read_children(words, true)?;
    if !children.iter().any(|child| child.is_none()) {
        return Err(Fault {
            place: first,
            expected: Expected::Dash,
        });
    }
    Ok(GateCommand::Fill(Gate {
        q,
        own,
        place,
        children,
    }))
}

fn read_check(words: &mut Words) -> Result<GateCommand, Fault> {
    let q = words.number()?;
    let wanted = words.number()?;
    let place = words.place();
    let own = words.number()?;
    let children = read_children(words, false)?;
    Ok(GateCommand::Check(
        wanted,
        Gate {
            q,
            own,
            place,
            children,
        },
    ))
}

// The command from the words after `gate`.
pub fn read(words: &mut Words) -> Result<GateCommand, Fault> {
    match words.read(Expected::GateVerb, read_verb)? {
        Verb::Split => read_split(words),
        Verb::Complete => read_complete(words),
        Verb::Check => read_check(words),
    }
}
