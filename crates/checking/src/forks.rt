// Forks: two transcripts with equal commitments and different challenges, and the keys that they give.
// kept: casts by `as`: nothing is lost, as the check proves; behind a `From` a number is a new one to the proof, and a `TryFrom` has a refusal that never comes
ghost use Rattle.std.specs.Prelude.{◌≡◌, ℕ, ◌<◌, T, length, ◌≢◌, slice_index_or};
ghost use Rattle.refusals.specs.Checks.{told};
ghost use Rattle.fields.specs.Scalars.{scalar};
ghost use Rattle.kinds.specs.Kinds.{zeros};
ghost use Rattle.kinds.specs.declared.image.Image.{Image as FourWords};
ghost use Rattle.refusals.specs.declared.Refusal.TheVariants.{CommitmentsDiffer};
ghost use Rattle.releases.specs.Entries.{leaves as leaf_entries, LeafAt};
ghost use Rattle.releases.specs.Transcripts.{is_scalar, IsKey, challenge as challenge_at, response as response_at};
ghost use Rattle.releases.specs.Keys.{scale_key};
ghost use Rattle.releases.specs.Forks.{Forked};
ghost use Rattle.releases.specs.Checks.{Clear, Each};
ghost use Rattle.settings.specs.Rules.{rule_in};
ghost use Rattle.transcripts.specs.Transcripts.{transcript_in};
ghost use Rattle.checking.specs.Checkings.{ForkChecked, ForkedKey};

use crate::checker::Checker;
use fields::{Field, Scalar, Scalars};
use kinds::{Image, Key, LeafKinds};
use refusals::Refusal;
use settings::Rule;
use transcripts::Transcript;

// Both scalars of a pair divided by one that is not 0: one division, by which both are multiplied.
fn divide_pair(field: &Scalars, pair: Key, by: Scalar) -> Key
    requires elements { (pair.0.0 < field.now.q) × ((pair.1.0 < field.now.q) × (by.0 < field.now.q)) }
    requires apart { by ≢ scalar 0 }
    ensures elements { (result.0.0 < field.now.q) × (result.1.0 < field.now.q) }
    ensures divides { scale_key field.now.q by result ≡ pair }
{
    let inverse = field.quotient(field.one(), by);
    (
        field.product(inverse, pair.0),
        field.product(inverse, pair.1),
    )
}

// The key that one leaf's challenges and responses in two transcripts give: none where the challenges are equal.
fn fork_key(field: &Scalars, challenges: (Scalar, Scalar), response: Key, other: Key) -> Option<Key>
    requires challenges { (challenges.0.0 < field.now.q) × (challenges.1.0 < field.now.q) }
    requires responses { (response.0.0 < field.now.q) × ((response.1.0 < field.now.q) × ((other.0.0 < field.now.q) × (other.1.0 < field.now.q))) }
    ensures { ForkedKey field.now.q challenges.0 challenges.1 response other result }
{
    if challenges.0 == challenges.1 {
        return None;
    }
    let by = field.difference(challenges.0, challenges.1);
    let first = field.difference(response.0, other.0);
    let second = field.difference(response.1, other.1);
    Some(divide_pair(field, (first, second), by))
}

impl<S: LeafKinds> Checker<'_, S> {
    // Writes the keys that two transcripts give: at each leaf whose challenges differ the quotient of the responses by them, else none.
    pub fn fork_keys(&self, transcript: &Transcript, other: &Transcript, keys: &mut [Option<Key>])
        requires long { let n = length (rule_in self.now.rule.now) in let t = transcript_in transcript.now in let o = transcript_in other.now in (length t.challenges ≡ n) × (length o.challenges ≡ n) }
        requires responses { let l = leaf_entries (rule_in self.now.rule.now) in let t = transcript_in transcript.now in let o = transcript_in other.now in (length t.responses ≡ l) × ((length o.responses ≡ l) × (length keys.old ≡ l)) }
        requires scalars { let m = S.LeafKinds.meaning self.now.set.now in ((i : ℕ) → i < length (rule_in self.now.rule.now) → T (is_scalar m (challenge_at (transcript_in transcript.now) i)) × T (is_scalar m (challenge_at (transcript_in other.now) i))) }
        requires answers { let m = S.LeafKinds.meaning self.now.set.now in let rule = rule_in self.now.rule.now in ((i kind : ℕ) (s : FourWords) → LeafAt rule i kind s → IsKey m kind (response_at rule (transcript_in transcript.now) i) × IsKey m kind (response_at rule (transcript_in other.now) i)) }
        ensures { Forked (S.LeafKinds.meaning self.now.set.now).q (rule_in self.now.rule.now) (transcript_in transcript.now) (transcript_in other.now) keys.new }
    {
        let field = Scalars::known(self.set.order());
        let leaves = self.rule.leaves();
        // kept: keys by the leaf's number; after a zip of `iter_mut` a proof knows nothing of what was written.
        for (number, leaf) in leaves.iter().enumerate() {
            let at = leaf.entry;
            let pair = (transcript.challenges[at], other.challenges[at]);
            keys[number] = fork_key(
                &field,
                pair,
                transcript.responses[number],
                other.responses[number],
            );
        }
    }
}

// Refuses the first leaf at which the commitments of two transcripts differ.
fn compare_commitments(rule: &Rule, commitments: &[Image], others: &[Image]) -> Result<(), Refusal>
    requires { let l = leaf_entries (rule_in rule.now) in (length commitments.now ≡ l) × (length others.now ≡ l) }
    ensures { Each (leaf_entries (rule_in rule.now)) (λ l. slice_index_or commitments.now l zeros ≡ slice_index_or others.now l zeros) CommitmentsDiffer Clear (told result) }
{
    match commitments.iter().zip(others).position(|(a, b)| a != b) {
        Some(leaf) => Err(Refusal::CommitmentsDiffer(leaf as u8)),
        None => Ok(()),
    }
}

// Refuses transcripts that are no fork: the first leaf at which their commitments differ, else challenges that are equal.
pub fn check_fork(rule: &Rule, transcript: &Transcript, other: &Transcript) -> Result<(), Refusal>
    requires commitments { let l = leaf_entries (rule_in rule.now) in (length (transcript_in transcript.now).commitments ≡ l) × (length (transcript_in other.now).commitments ≡ l) }
    requires challenges { (0 < length (transcript_in transcript.now).challenges) × (0 < length (transcript_in other.now).challenges) }
    ensures { let t = transcript_in transcript.now in let o = transcript_in other.now in ForkChecked (leaf_entries (rule_in rule.now)) t.commitments o.commitments t.challenges o.challenges Clear (told result) }
{
    compare_commitments(rule, transcript.commitments, other.commitments)?;
    if transcript.challenges[0] == other.challenges[0] {
        return Err(Refusal::ChallengesEqual);
    }
    Ok(())
}
