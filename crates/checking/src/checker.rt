// A rule with the set of leaf kinds that it was built over: what transcripts are checked against.
ghost use Rattle.releases.specs.Theorems.{Setting};
ghost use Rattle.settings.specs.Rules.{rule_in};

use kinds::LeafKinds;
use settings::Rule;

#[derive(Drop)]
pub struct Checker<'a, S: LeafKinds> {
    pub set: &'a S,
    pub rule: &'a Rule,
    ghost setting: { ∥ Setting (S.LeafKinds.meaning set.now) (rule_in rule.now) ∥₁ },
}

impl<'a, S: LeafKinds> Checker<'a, S> {
    ghost use Rattle.std.specs.Prelude.{◌≡◌};

    // A rule, with the set that it was built over.
    pub fn new(set: &'a S, rule: &'a Rule) -> Checker<'a, S>
        requires { Setting (S.LeafKinds.meaning set.now) (rule_in rule.now) }
        ensures { (result.set.now ≡ set.now) × (result.rule.now ≡ rule.now) }
    {
        Checker { set, rule }
    }
}
