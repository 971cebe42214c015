// A line's command, and what comes of it.
ghost use Rattle.std.specs.Prelude.{◌≡◌};
ghost use Rattle.script.specs.Commands.{other_topic, topic_of, command_about, command_of};

use crate::group_commands::{GroupCommand, GroupReply, Verb};
use crate::scalar_commands::{ScalarCommand, ScalarReply};
use crate::{group_commands, scalar_commands};
use script_gates::GateReply;
use script_kinds::{KindCommand, KindReply};
use script_rules::{RuleCommand, RuleReply};
use std::fmt;
use words::{Expected, Fault, Words};

#[derive(Clone, Copy)]
pub enum Command {
    Group(GroupCommand),
    Scalar(ScalarCommand),
    Kind(KindCommand),
    Rule(RuleCommand),
    // it stands in the line
    Gate,
}

#[derive(Clone, Copy)]
pub enum Reply {
    Group(GroupReply),
    Scalar(ScalarReply),
    Kind(KindReply),
    Rule(RuleReply),
    Gate(GateReply),
}

// What a command is about, by its first word.
// kept: an enum, and no functions that are handed about: contracts say what each word is read as
#[derive(Clone, Copy, PartialEq, Eq, Debug)]
pub enum Topic {
    Group(Verb),
    Scalar,
    Kind,
    Rule,
    Gate,
}

// A topic but groups, whose commands begin with a verb.
fn read_other(word: &[u8]) -> Option<Topic>
    ensures { result ≡ other_topic word.now }
{
    match word {
        b"scalar" => Some(Topic::Scalar),
        b"kind" => Some(Topic::Kind),
        b"rule" => Some(Topic::Rule),
        b"gate" => Some(Topic::Gate),
        _ => None,
    }
}

fn read_topic(word: &[u8]) -> Option<Topic>
    ensures { result ≡ topic_of word.now }
{
    let group = group_commands::read_verb(word).map(Topic::Group);
    group.or(read_other(word))
}

fn read_about(topic: Topic, words: &mut Words) -> Result<Command, Fault>
    ensures { result ≡ command_about topic words.old.place words.old.rest.now }
{
    match topic {
        Topic::Group(verb) => Ok(Command::Group(group_commands::read(verb, words)?)),
        Topic::Scalar => Ok(Command::Scalar(scalar_commands::read(words)?)),
        Topic::Kind => Ok(Command::Kind(script_kinds::read(words)?)),
        Topic::Rule => Ok(Command::Rule(script_rules::read(words)?)),
        Topic::Gate => Ok(Command::Gate),
    }
}

// The command of a line; none where it has no words before its comment.
pub fn read(line: &[u8]) -> Result<Option<Command>, Fault>
    ensures { result ≡ command_of line.now }
{
    let mut words = Words::new(line);
    let Some(first) = words.word() else {
        return Ok(None);
    };
    let topic = read_topic(first).ok_or(Fault {
        place: 1,
        expected: Expected::Command,
    })?;
    Ok(Some(read_about(topic, &mut words)?))
}

impl fmt::Display for Reply {
    fn fmt<W: fmt::Write>(&self, f: &mut fmt::Formatter<W>) -> fmt::Result {
        match *self {
            Reply::Group(reply) => write!(f, "{reply}"),
            Reply::Scalar(reply) => write!(f, "{reply}"),
            Reply::Kind(reply) => write!(f, "{reply}"),
            Reply::Rule(reply) => write!(f, "{reply}"),
            Reply::Gate(reply) => write!(f, "{reply}"),
        }
    }
}
