// Building a rule with its ring from a text and a ring's bytes.
ghost use Rattle.std.specs.Prelude.{◌≡◌, length, IfOk, MatchResult};
ghost use Rattle.rules.specs.Tables.{leaves as keys};
ghost use Rattle.rules.specs.Texts.{rows_in};
ghost use Rattle.releases.specs.Entries.{entries};
ghost use Rattle.releases.specs.Theorems.{Setting};
ghost use Rattle.settings.specs.Rules.{rule_in};
ghost use Rattle.settings.specs.Buildings.{Built, Unbuilt};

use crate::node::Node;
use crate::rule::Rule;
use bounded::Row;
use kinds::{Image, LeafKinds};
use refusals::Refusal;
use rings::{Line, pair, read_ring};
use rules::{Entry, Table, read};

// A rule of a table, the leaves with these lines in order, one to each.
fn with_lines(table: &Table, lines: &[Line]) -> Rule
    requires { length lines.now ≡ keys (rows_in table.now) }
    ensures { rule_in result ≡ entries (rows_in table.now) lines.now }
{
    let mut nodes = Row::blank(Node::Leaf {
        kind: 0,
        statement: Image::ZEROS,
    });
    let mut left = lines.iter();
    for entry in table.entries() {
        nodes.push(match *entry {
            Entry::Leaf { .. } => Node::from(*left.next().unwrap()),
            Entry::Gate {
                threshold,
                children,
            } => Node::Gate {
                threshold,
                children,
            },
        });
    }
    Rule {
        nodes,
        leaves: table.leaf_count(),
    }
}

// Reads a rule's text, then its ring over a set of leaf kinds, and pairs them: the first fault is told.
pub fn build<S: LeafKinds>(set: &S, text: &[u8], ring: &[u8]) -> Result<Rule, Refusal>
    ensures built { MatchResult result (λ rule. Built (S.LeafKinds.meaning set.now) text.now ring.now (rule_in rule)) (λ x. Unbuilt (S.LeafKinds.meaning set.now) text.now ring.now x) }
    ensures setting { IfOk result (λ rule. Setting (S.LeafKinds.meaning set.now) (rule_in rule)) }
{
    let table = read(text)?;
    let ring = read_ring(set, ring)?;
    let lines = pair(&table, &ring)?;
    Ok(with_lines(&table, &lines))
}
