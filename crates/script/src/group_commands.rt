// Commands on groups: making one, and asking it.
ghost use Rattle.std.specs.Prelude.{◌≡◌};
ghost use Rattle.script.specs.GroupCommands.{verb_of, kind_of, command_at, group_command};

use crate::questions::Question;
use std::fmt;
use words::{Expected, Fault, Kind, Words};

#[derive(Clone, Copy, PartialEq, Eq, Debug)]
pub enum GroupCommand {
    MakeResidue {
        q: u32,
        p: u32,
        g: u32,
        h: u32,
    },
    MakeCircle {
        q: u32,
        p: u32,
        g: (u32, u32),
        h: (u32, u32),
    },
    Ask(Kind, Question),
}

#[derive(Clone, Copy, PartialEq, Eq, Debug)]
pub enum GroupReply {
    // the kind, q and p
    Made(Kind, u32, u32),
    Element(bool),
    Product(u32, u32),
    Power(u32, u32),
}

// The first word of a command on groups.
// kept: an enum, and no functions that are handed about: contracts say what each word is read as
#[derive(Clone, Copy, PartialEq, Eq, Debug)]
pub enum Verb {
    Make,
    Element,
    Multiply,
    Power,
}

pub fn read_verb(word: &[u8]) -> Option<Verb>
    ensures { result ≡ verb_of word.now }
{
    match word {
        b"group" => Some(Verb::Make),
        b"element" => Some(Verb::Element),
        b"multiply" => Some(Verb::Multiply),
        b"power" => Some(Verb::Power),
        _ => None,
    }
}

fn read_kind(word: &[u8]) -> Option<Kind>
    ensures { result ≡ kind_of word.now }
{
    match word {
        b"residue" => Some(Kind::Residue),
        b"circle" => Some(Kind::Circle),
        _ => None,
    }
}

fn read_parts(verb: Verb, kind: Kind, words: &mut Words) -> Result<GroupCommand, Fault>
    ensures { result ≡ command_at verb kind words.old.place words.old.rest.now }
{
    match (verb, kind) {
        (Verb::Make, Kind::Residue) => {
            let [q, p, g, h] = words.numbers::<4>()?;
            Ok(GroupCommand::MakeResidue { q, p, g, h })
        }
        (Verb::Make, Kind::Circle) => {
            let [q, p, ga, gb, ha, hb] = words.numbers::<6>()?;
            Ok(GroupCommand::MakeCircle {
                q,
                p,
                g: (ga, gb),
                h: (ha, hb),
            })
        }
        (Verb::Element, _) => {
            let [a, b] = words.numbers::<2>()?;
            Ok(GroupCommand::Ask(kind, Question::Element((a, b))))
        }
        (Verb::Multiply, _) => {
            let [a, b, c, d] = words.numbers::<4>()?;
            Ok(GroupCommand::Ask(kind, Question::Multiply((a, b), (c, d))))
        }
        (Verb::Power, _) => {
            let [a, b, exponent] = words.numbers::<3>()?;
            Ok(GroupCommand::Ask(kind, Question::Power((a, b), exponent)))
        }
    }
}

// The command that begins with the verb, from the words after it.
pub fn read(verb: Verb, words: &mut Words) -> Result<GroupCommand, Fault>
    ensures { result ≡ group_command verb words.old.place words.old.rest.now }
{
    let kind = words.read(Expected::Kind, read_kind)?;
    read_parts(verb, kind, words)
}

impl fmt::Display for GroupReply {
    fn fmt<W: fmt::Write>(&self, f: &mut fmt::Formatter<W>) -> fmt::Result {
        match *self {
            GroupReply::Made(kind, q, p) => write!(f, "made {kind} group {q} {p}"),
            GroupReply::Element(true) => write!(f, "element yes"),
            GroupReply::Element(false) => write!(f, "element no"),
            GroupReply::Product(a, b) => write!(f, "product {a} {b}"),
            GroupReply::Power(a, b) => write!(f, "power {a} {b}"),
        }
    }
}
