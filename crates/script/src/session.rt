// A session: the groups and the rule that a script made last.
ghost use Rattle.std.specs.Prelude.{◌≡◌};
ghost use Rattle.std.specs.Option.{option_map};
ghost use Rattle.words.specs.Words.{fault};
ghost use Rattle.script_kinds.specs.KindReplies.{parts};
ghost use Rattle.script.specs.Sessions.{model, fresh, paired, group_made, asked, group_step, kinds_asked, RuleRead, RuleWritten, RuleSplit, RuleStep, Obeyed, Answers};

use crate::command::{Command, Reply};
use crate::group_commands::{GroupCommand, GroupReply};
use crate::questions::{Question, ask};
use crate::{command, scalar_commands};
use groups::{CircleGroup, Modular, PrimeGroup, Residue, ResidueGroup};
use rules::Table;
use script_kinds::{KindCommand, KindReply};
use script_rules::{RuleCommand, RuleReply};
use words::{Expected, Fault, Kind, Unanswered};

#[derive(Clone, Copy)]
pub struct Session {
    residue: Option<ResidueGroup>,
    circle: Option<CircleGroup>,
    rule: Option<Table>,
}

// That a command stands on what was not made.
fn missing(expected: Expected) -> Fault
    ensures { result ≡ fault 1 expected }
{
    Fault { place: 1, expected }
}

fn pair(words: (u32, u32)) -> (Residue, Residue)
    ensures { result ≡ paired words }
{
    (Residue::new(words.0), Residue::new(words.1))
}

// Makes a group, which takes the place of the one before; one that is refused leaves that.
fn make<E: Modular>(
    last: &mut Option<PrimeGroup<E>>,
    kind: Kind,
    q: u32,
    p: u32,
    g: E,
    h: E,
) -> Result<GroupReply, Unanswered>
    ensures { (result, option_map parts last.new) ≡ group_made E.ambient kind (option_map parts last.old) q p g h }
{
    *last = Some(PrimeGroup::new(q, p, g, h)?);
    Ok(GroupReply::Made(kind, q, p))
}

impl Session {
    pub fn new() -> Session
        ensures { model result ≡ fresh }
    {
        Session {
            residue: None,
            circle: None,
            rule: None,
        }
    }

    // Asks the group of a kind that was made last.
    fn ask(&self, kind: Kind, question: Question) -> Result<GroupReply, Fault>
        ensures { result ≡ asked (model self.now) kind question }
    {
        let missing = Fault {
            place: 2,
            expected: Expected::Group(kind),
        };
        match kind {
            Kind::Residue => ask(&self.residue.ok_or(missing)?, kind, question),
            Kind::Circle => ask(&self.circle.ok_or(missing)?, kind, question),
        }
    }

    fn obey_group(&mut self, command: GroupCommand) -> Result<GroupReply, Unanswered>
        ensures { (result, model self.new) ≡ group_step (model self.old) command }
    {
        match command {
            GroupCommand::MakeResidue { q, p, g, h } => {
                let (g, h) = (Residue::new(g), Residue::new(h));
                make(&mut self.residue, Kind::Residue, q, p, g, h)
            }
            GroupCommand::MakeCircle { q, p, g, h } => {
                let (g, h) = (pair(g), pair(h));
                make(&mut self.circle, Kind::Circle, q, p, g, h)
            }
            GroupCommand::Ask(kind, question) => Ok(self.ask(kind, question)?),
        }
    }

    // Asks the supplied set over the two groups that were made last.
    fn ask_kinds(&self, command: KindCommand) -> Result<KindReply, Unanswered>
        ensures { result ≡ kinds_asked (model self.now) command }
    {
        let residues = self
            .residue
            .ok_or(missing(Expected::AfterGroup(Kind::Residue)))?;
        let circle = self
            .circle
            .ok_or(missing(Expected::AfterGroup(Kind::Circle)))?;
        Ok(script_kinds::obey(residues, circle, command)?)
    }

    // Reads a rule; one that is faulty leaves the rule that was read before.
    fn read_rule(&mut self, text: &[u8]) -> RuleReply
        ensures { RuleRead (model self.old) text.now result (model self.new) }
    {
        let reply = script_rules::read_rule(text);
        if let RuleReply::Tree(table) = reply {
            self.rule = Some(table);
        }
        reply
    }

    // Writes the rule that was read last.
    fn write_rule(&self) -> Result<RuleReply, Fault>
        ensures { RuleWritten (model self.now).rule_rows result }
    {
        let table = self.rule.ok_or(missing(Expected::AfterRule))?;
        Ok(script_rules::write_rule(&table))
    }

    // Splits down the rule that was read last.
    fn split_rule(&self, line: &[u8]) -> Result<RuleReply, Unanswered>
        ensures { RuleSplit (model self.now).rule_rows result }
    {
        let table = self.rule.ok_or(missing(Expected::AfterRule))?;
        Ok(RuleReply::Split(script_gates::answer_split(&table, line)?))
    }

    fn obey_rule(&mut self, command: RuleCommand, line: &[u8]) -> Result<RuleReply, Unanswered>
        ensures { RuleStep (model self.old) command line.now result (model self.new) }
    {
        match command {
            RuleCommand::Read => Ok(self.read_rule(script_rules::rule_text(line))),
            RuleCommand::Write => Ok(self.write_rule()?),
            RuleCommand::Split => self.split_rule(line),
        }
    }

    // Obeys the command of a line.
    pub fn obey(&mut self, command: Command, line: &[u8]) -> Result<Reply, Unanswered>
        ensures { Obeyed (model self.old) command line.now result (model self.new) }
    {
        match command {
            Command::Group(command) => Ok(Reply::Group(self.obey_group(command)?)),
            Command::Scalar(command) => Ok(Reply::Scalar(scalar_commands::obey(command)?)),
            Command::Kind(command) => Ok(Reply::Kind(self.ask_kinds(command)?)),
            Command::Rule(command) => Ok(Reply::Rule(self.obey_rule(command, line)?)),
            Command::Gate => Ok(Reply::Gate(script_gates::answer_gate(line)?)),
        }
    }

    // Reads a line and obeys it: what came of it, what was expected, or why it is refused; nothing where there is no command.
    pub fn answer(&mut self, line: &[u8]) -> Result<Option<Reply>, Unanswered>
        ensures { Answers (model self.old) line.now result (model self.new) }
    {
        let Some(command) = command::read(line)? else {
            return Ok(None);
        };
        Ok(Some(self.obey(command, line)?))
    }
}
