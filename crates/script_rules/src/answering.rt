// What a command on rules is answered.
ghost use Rattle.rules.specs.Texts.{rows_in};
ghost use Rattle.script_rules.specs.RuleReplies.{ShownAs, Reading, Writing};

use bounded::Row;
use refusals::Refusal;
use rules::{Table, Text, read, spelled};
use script_gates::Challenges;

#[derive(Clone, Copy)]
pub enum RuleReply {
    // the rule that was read
    Tree(Table),
    // why a text is no rule, and the text where it is shown
    // kept: a reply and no error, since it shows the text that it speaks of
    Faulty(Refusal, Option<Text>),
    // the text of the rule
    Text(Text),
    // what the rule's entries get where a challenge is split down it
    Split(Challenges),
}

// A text as it is shown: none where it has no byte, or more than 240.
fn shown(text: &[u8]) -> Option<Text>
    ensures { ShownAs text.now result }
{
    // kept: the closure of `then` would need a `requires` of its own
    if (1..=240).contains(&text.len()) {
        Some(Row::of(0, text))
    } else {
        None
    }
}

// Reads a rule's text, whatever its bytes.
pub fn read_rule(text: &[u8]) -> RuleReply
    ensures { Reading text.now result }
{
    match read(text) {
        Ok(table) => RuleReply::Tree(table),
        Err(why) => RuleReply::Faulty(why, shown(text)),
    }
}

// The text of a rule.
pub fn write_rule(table: &Table) -> RuleReply
    ensures { Writing (rows_in table.now) result }
{
    RuleReply::Text(spelled(table))
}
