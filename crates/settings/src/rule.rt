// A rule with its ring: its entries, and how many of them are leaves.
ghost use Rattle.std.specs.Prelude.{◌≡◌, ℕ, ◌≤◌, map, length, get_or, MatchOption};
ghost use Rattle.std.proofs.Math.Option.{some};
ghost use Rattle.std.proofs.Math.ListN.{get_elem?};
ghost use Rattle.bounded.specs.Rows.{items};
ghost use Rattle.releases.specs.Entries.{leaves as leaf_entries, LeafAt, number};
ghost use Rattle.settings.specs.Nodes.{entry_of};

use crate::node::{Leaf, Node};
use bounded::Row;
use kinds::Image;

// kept: leaves are counted as they come, since a count at each call would go through the entries again
#[derive(Clone, Copy)]
pub struct Rule {
    pub(crate) nodes: Row<Node, 31>,
    pub(crate) leaves: usize,
    ghost few: { leaves ≤ 16 },
    ghost counted: { leaves ≡ leaf_entries (map entry_of (items nodes)) },
}

impl Rule {
    ghost use Rattle.settings.specs.Rules.{rule_in};
    ghost use Rattle.settings.specs.Leaves.{leaves_of};

    // N, the number of entries.
    pub fn len(&self) -> usize
        ensures is { result ≡ length (rule_in self.now) }
        ensures few { result ≤ 31 }
    {
        self.nodes.len()
    }

    // L, the number of leaves.
    pub fn leaf_count(&self) -> usize
        ensures is { result ≡ leaf_entries (rule_in self.now) }
        ensures few { result ≤ 16 }
    {
        self.leaves
    }

    // The entries, in the order of the table.
    pub fn nodes(&self) -> &[Node]
        ensures are { map entry_of result.now ≡ rule_in self.now }
        ensures count { length result.now ≡ length (rule_in self.now) }
        ensures few { length result.now ≤ 31 }
    {
        &self.nodes
    }

    // The leaves, in the order of the table: each stands at its number.
    pub fn leaves(&self) -> Row<Leaf, 16>
        ensures are { items result ≡ leaves_of (rule_in self.now) }
        ensures count { length (items result) ≡ leaf_entries (rule_in self.now) }
        ensures stand { (i kind : ℕ) (s : Image) (d : Leaf) → LeafAt (rule_in self.now) i kind s → get_or (items result) (number (rule_in self.now) i) d ≡ record { entry = i; kind = kind; statement = s } }
    {
        let mut leaves = Row::blank(Leaf {
            entry: 0,
            kind: 0,
            statement: Image::ZEROS,
        });
        for (entry, node) in self.nodes().iter().enumerate() {
            if let Node::Leaf { kind, statement } = *node {
                leaves.push(Leaf {
                    entry,
                    kind,
                    statement,
                });
            }
        }
        leaves
    }

    // The entry at a position, or none past the last.
    pub fn node(&self, position: usize) -> Option<Node>
        ensures { MatchOption result (length (rule_in self.now) ≤ position) (λ n. get_elem? (rule_in self.now) position ≡ some (entry_of n)) }
    {
        self.nodes().get(position).copied()
    }
}
