// What is wrong with a line: which word, counted from 1, and what was expected of it.
use crate::kind::Kind;
use std::fmt;

#[derive(Clone, Copy, PartialEq, Eq, Debug)]
pub enum Expected {
    // the name of a command
    Command,
    // the name of a kind of groups
    Kind,
    // the name of an operation on scalars
    Operation,
    // what is done with leaf kinds, with rules, with gates
    KindVerb,
    RuleVerb,
    GateVerb,
    // digits that stand for a number below 2^32
    Number,
    // digits that stand for a number below 256
    Byte,
    // a number or `-`
    NumberOrDash,
    // no word at all
    End,
    // a number below the order q
    Scalar,
    // not 0
    Divisor,
    // how many children a gate has: 1 to 8
    Children,
    // how many of its children a gate wants: 1 to all
    Wanted,
    // this word, or one after it, `-`
    Dash,
    // with the word after it an element of the group of this kind
    Element(Kind),
    // the kind of a group that was made
    Group(Kind),
    // a command that stands on a group of this kind
    AfterGroup(Kind),
    // a command that stands on a rule
    AfterRule,
}

#[derive(Clone, Copy, PartialEq, Eq, Debug)]
pub struct Fault {
    pub place: u32,
    pub expected: Expected,
}

impl Expected {
    // What a word should be, where one text says it.
    fn phrase(self) -> Option<&'static str> {
        match self {
            Expected::Command => Some(
                "group, element, multiply, power, scalar, kind, rule or gate",
            ),
            Expected::Kind => Some("residue or circle"),
            Expected::Operation => Some("add, multiply or divide"),
            Expected::KindVerb => Some("set, test, multiply, neutral, key or power"),
            Expected::RuleVerb => Some("read, write or split"),
            Expected::GateVerb => Some("split, complete or check"),
            Expected::Number => Some("a number from 0 to 4294967295"),
            Expected::Byte => Some("a number from 0 to 255"),
            Expected::NumberOrDash => Some("a number from 0 to 4294967295, or -"),
            Expected::Scalar => Some("a scalar below q"),
            Expected::Divisor => Some("a divisor other than 0"),
            Expected::Children => Some("a number of children from 1 to 8"),
            Expected::Wanted => Some("a number from 1 to the number of children"),
            _ => None,
        }
    }
}

// `expected`, the word, and what it should be.
impl fmt::Display for Fault {
    fn fmt<W: fmt::Write>(&self, f: &mut fmt::Formatter<W>) -> fmt::Result {
        let place = self.place;
        let next = place.saturating_add(1);
        if let Some(phrase) = self.expected.phrase() {
            return write!(f, "expected word {place} to be {phrase}");
        }
        match self.expected {
            Expected::Element(kind) => write!(
                f,
                "expected words {place} and {next} to be an element of the {kind} group"
            ),
            Expected::Group(kind) => write!(
                f,
                "expected word {place} to name a group that was made, and no {kind} group was"
            ),
            Expected::AfterGroup(kind) => write!(
                f,
                "expected word {place} to come after a {kind} group was made"
            ),
            Expected::AfterRule => write!(f, "expected word {place} to come after a rule was read"),
            Expected::Dash => write!(f, "expected word {place} or one after it to be -"),
            _ => write!(f, "expected no word {place}"),
        }
    }
}
