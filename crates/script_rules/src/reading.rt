// Commands on rules, read from the words of a line.
ghost use Rattle.std.specs.Prelude.{◌≡◌};
ghost use Rattle.script_rules.specs.RuleCommands.{verb_of, rule_command, rule_text as spelt};

use words::{Expected, Fault, Words};

// The text of a rule that is read is what follows in the line, and so are the numbers of a split.
#[derive(Clone, Copy, PartialEq, Eq, Debug)]
pub enum RuleCommand {
    Read,
    Write,
    Split,
}

fn read_verb(word: &[u8]) -> Option<RuleCommand>
    ensures { result ≡ verb_of word.now }
{
    match word {
        b"read" => Some(RuleCommand::Read),
        b"write" => Some(RuleCommand::Write),
        b"split" => Some(RuleCommand::Split),
        _ => None,
    }
}

// The command from the words after `rule`.
pub fn read(words: &mut Words) -> Result<RuleCommand, Fault>
    ensures { result ≡ rule_command words.old.place words.old.rest.now }
{
    let command = words.read(Expected::RuleVerb, read_verb)?;
    if command == RuleCommand::Write {
        words.end()?;
    }
    Ok(command)
}

// The text of the rule in a line `rule read TEXT`.
pub fn rule_text(line: &[u8]) -> &[u8]
    ensures { result.now ≡ spelt line.now }
{
    let mut words = Words::new(line);
    let _rule = words.word();
    let _read = words.word();
    words.text()
}
