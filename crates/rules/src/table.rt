// The table of a rule that was read: its items in the order in which they begin in the text.
ghost use Rattle.rules.specs.Views.{Lawful};

use crate::entry::{Entries, Entry};

#[derive(Clone, Copy)]
pub struct Table {
    pub(crate) entries: Entries,
    ghost lawful: { ∥ Lawful entries ∥₁ },
}

impl Table {
    ghost use Rattle.std.specs.Prelude.{◌≡◌, ◌<◌, ◌≤◌, length, map, MatchOption};
    ghost use Rattle.std.proofs.Math.Option.{some};
    ghost use Rattle.std.proofs.Math.ListN.{get_elem?};
    ghost use Rattle.rules.specs.Tables.{leaves, WellFormed};
    ghost use Rattle.rules.specs.Views.{row_of};
    ghost use Rattle.rules.specs.Texts.{rows_in};

    // The entries in their order, from 1 to 31.
    #[tactic(auto, unfolding(crate::specs::Views::listing))]
    pub fn entries(&self) -> &[Entry]
        ensures { map row_of result.now ≡ rows_in self.now }
    {
        &self.entries.list
    }

    // N, the number of entries, from 1 to 31. Every table is well formed.
    pub fn len(&self) -> usize
        ensures is { result ≡ length (rows_in self.now) }
        ensures formed { WellFormed (rows_in self.now) }
    {
        self.entries().len()
    }

    // L, the number of leaves, from 1 to 16.
    pub fn leaf_count(&self) -> usize
        ensures { result ≡ leaves (rows_in self.now) }
    {
        self.entries.keys
    }

    // The entry at a position, or none past the last.
    #[tactic(auto, using(crate::proofs::Lists::looked_up))]
    pub fn entry(&self, position: usize) -> Option<Entry>
        ensures { MatchOption result (length (rows_in self.now) ≤ position) (λ e. get_elem? (rows_in self.now) position ≡ some (row_of e)) }
    {
        self.entries().get(position).copied()
    }
}
