// Whether the equation of each leaf holds: image(response) = commitment · statement^challenge.
// kept: casts by `as`: nothing is lost, as the check proves; behind a `From` a number is a new one to the proof, and a `TryFrom` has a refusal that never comes
ghost use Rattle.std.specs.Prelude.{◌≡◌, ℕ, T};
ghost use Rattle.refusals.specs.Checks.{told};
ghost use Rattle.kinds.specs.declared.image.Image.{Image as FourWords};
ghost use Rattle.releases.specs.Entries.{LeafAt};
ghost use Rattle.releases.specs.Transcripts.{Shaped, IsImage, IsKey, raised, commitment as commitment_at, response as response_at};
ghost use Rattle.releases.specs.Checks.{Clear};
ghost use Rattle.settings.specs.Rules.{rule_in};
ghost use Rattle.transcripts.specs.Transcripts.{transcript_in};
ghost use Rattle.checking.specs.Checkings.{EquationsChecked};

use crate::checker::Checker;
use fields::Scalar;
use kinds::{Image, Key, LeafKinds, power_of_image, product_of_images};
use refusals::Refusal;
use transcripts::Transcript;

// Whether the equation holds at one leaf. Nothing is tested: the statement and the commitment are images, the response a key.
fn equation_holds<S: LeafKinds>(
    set: &S,
    kind: u8,
    statement: &Image,
    challenge: Scalar,
    commitment: &Image,
    response: Key,
) -> bool
    requires { let m = S.LeafKinds.meaning set.now in (IsImage m kind statement.now) × ((IsImage m kind commitment.now) × (IsKey m kind response)) }
    ensures { let m = S.LeafKinds.meaning set.now in let equation = (m.kind kind).image response ≡ (m.kind kind).product commitment.now (raised m kind statement.now challenge.0) in (T result → equation) × (equation → T result) }
{
    let left = set.image_of_key(kind, response);
    let power = power_of_image(set, kind, statement, challenge.value());
    let right = product_of_images(set, kind, commitment, &power);
    left == right
}

impl<S: LeafKinds> Checker<'_, S> {
    // Refuses the first leaf whose equation does not hold.
    pub fn check_equations(&self, transcript: &Transcript) -> Result<(), Refusal>
        requires shaped { Shaped (rule_in self.now.rule.now) (transcript_in transcript.now) }
        requires images { let rule = rule_in self.now.rule.now in (i kind : ℕ) (s : FourWords) → LeafAt rule i kind s → IsImage (S.LeafKinds.meaning self.now.set.now) kind (commitment_at rule (transcript_in transcript.now) i) }
        requires keys { let rule = rule_in self.now.rule.now in (i kind : ℕ) (s : FourWords) → LeafAt rule i kind s → IsKey (S.LeafKinds.meaning self.now.set.now) kind (response_at rule (transcript_in transcript.now) i) }
        ensures { EquationsChecked (S.LeafKinds.meaning self.now.set.now) (rule_in self.now.rule.now) (transcript_in transcript.now) Clear (told result) }
    {
        let leaves = self.rule.leaves();
        // kept: by the leaf's number, as where commitments are checked: the proof over a zip did not close
        for (number, leaf) in leaves.iter().enumerate() {
            if !equation_holds(
                self.set,
                leaf.kind,
                &leaf.statement,
                transcript.challenges[leaf.entry],
                &transcript.commitments[number],
                transcript.responses[number],
            ) {
                return Err(Refusal::EquationFails(number as u8));
            }
        }
        Ok(())
    }
}
