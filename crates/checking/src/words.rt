// Whether the words of a transcript fit: the challenges, then the commitments, then the responses.
// kept: casts by `as`: nothing is lost, as the check proves; behind a `From` a number is a new one to the proof, and a `TryFrom` has a refusal that never comes
ghost use Rattle.std.specs.Prelude.{◌≡◌, ◌≤◌, length, if◌then◌else◌};
ghost use Rattle.refusals.specs.Checks.{told};
ghost use Rattle.releases.specs.Entries.{leaves as leaf_entries};
ghost use Rattle.releases.specs.Transcripts.{is_scalar, Shaped};
ghost use Rattle.releases.specs.Checks.{Clear};
ghost use Rattle.settings.specs.Rules.{rule_in};
ghost use Rattle.settings.specs.Leaves.{leaves_of};
ghost use Rattle.transcripts.specs.Transcripts.{transcript_in};
ghost use Rattle.checking.specs.Checkings.{ScalarsChecked, ImagesChecked, KeysChecked, WordsChecked};

use fields::Scalar;
use kinds::{Image, Key, LeafKinds, is_key};
use refusals::Refusal;
use settings::{Leaf, Rule};
use transcripts::Transcript;

// Refuses the first challenge that is not below q.
fn check_challenges<S: LeafKinds>(set: &S, challenges: &[Scalar]) -> Result<(), Refusal>
    requires { length challenges.now ≤ 31 }
    ensures { ScalarsChecked (S.LeafKinds.meaning set.now) challenges.now (told result) }
{
    let q = set.order();
    match challenges.iter().position(|c| c.value() >= q) {
        Some(i) => Err(Refusal::UnfitWord(i as u8)),
        None => Ok(()),
    }
}

// Refuses the first commitment that is no image of its leaf's kind.
fn check_commitments<S: LeafKinds>(
    set: &S,
    rule: &Rule,
    leaves: &[Leaf],
    commitments: &[Image],
) -> Result<(), Refusal>
    requires listed { leaves.now ≡ leaves_of (rule_in rule.now) }
    requires long { (length leaves.now ≡ leaf_entries (rule_in rule.now)) × (length commitments.now ≡ leaf_entries (rule_in rule.now)) }
    ensures { ImagesChecked (S.LeafKinds.meaning set.now) (rule_in rule.now) commitments.now (told result) }
{
    // kept: commitments by the leaf's number; tried: the leaves zipped with the commitments and `position`, the proof did not close,
    // as the test calls the set of leaf kinds. So it is with responses and equations.
    for (number, leaf) in leaves.iter().enumerate() {
        if !set.is_image(leaf.kind, &commitments[number]) {
            return Err(Refusal::UnfitWord((rule.len() + 4 * number) as u8));
        }
    }
    Ok(())
}

// Which scalar of a response that is no key does not fit: the first if it is not below q, else the second.
fn unfit_part<S: LeafKinds>(set: &S, response: Key) -> usize
    ensures { result ≡ (if is_scalar (S.LeafKinds.meaning set.now) response.0 then 1 else 0) }
{
    usize::from(response.0.value() < set.order())
}

// Refuses the first response that is no key of its leaf's kind.
fn check_responses<S: LeafKinds>(
    set: &S,
    rule: &Rule,
    leaves: &[Leaf],
    responses: &[Key],
) -> Result<(), Refusal>
    requires listed { leaves.now ≡ leaves_of (rule_in rule.now) }
    requires long { (length leaves.now ≡ leaf_entries (rule_in rule.now)) × (length responses.now ≡ leaf_entries (rule_in rule.now)) }
    ensures { KeysChecked (S.LeafKinds.meaning set.now) (rule_in rule.now) responses.now (told result) }
{
    let first = rule.len() + 4 * rule.leaf_count();
    // kept: by the leaf's number, as above
    for (number, leaf) in leaves.iter().enumerate() {
        let response = responses[number];
        if !is_key(set, leaf.kind, response) {
            let word = first + 2 * number + unfit_part(set, response);
            return Err(Refusal::UnfitWord(word as u8));
        }
    }
    Ok(())
}

// Refuses the first word that does not fit: a challenge is below q, four words of a commitment are an image of its leaf's
// kind (told at their first), two words of a response are a key of it.
// kept: no method of `Checker`, as it asks nothing that ties the set to the rule
pub fn check_words<S: LeafKinds>(
    set: &S,
    rule: &Rule,
    transcript: &Transcript,
) -> Result<(), Refusal>
    requires { Shaped (rule_in rule.now) (transcript_in transcript.now) }
    ensures { WordsChecked (S.LeafKinds.meaning set.now) (rule_in rule.now) (transcript_in transcript.now) Clear (told result) }
{
    check_challenges(set, transcript.challenges)?;
    let leaves = rule.leaves();
    check_commitments(set, rule, &leaves, transcript.commitments)?;
    check_responses(set, rule, &leaves, transcript.responses)
}
