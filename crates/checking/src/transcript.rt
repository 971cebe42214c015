// The checks of a whole transcript, in their order.
ghost use Rattle.refusals.specs.Checks.{told};
ghost use Rattle.releases.specs.Transcripts.{Shaped};
ghost use Rattle.releases.specs.Checks.{Clear};
ghost use Rattle.settings.specs.Rules.{rule_in};
ghost use Rattle.transcripts.specs.Transcripts.{transcript_in};
ghost use Rattle.checking.specs.Checkings.{TranscriptChecked};

use crate::checker::Checker;
use crate::words::check_words;
use kinds::LeafKinds;
use refusals::Refusal;
use transcripts::Transcript;

impl<S: LeafKinds> Checker<'_, S> {
    // Refuses a transcript that is not acceptable: the first word that does not fit, else the first gate that does not balance,
    // else the first leaf whose equation does not hold.
    pub fn check_transcript(&self, transcript: &Transcript) -> Result<(), Refusal>
        requires { Shaped (rule_in self.now.rule.now) (transcript_in transcript.now) }
        ensures { TranscriptChecked (S.LeafKinds.meaning self.now.set.now) (rule_in self.now.rule.now) (transcript_in transcript.now) Clear (told result) }
    {
        check_words(self.set, self.rule, transcript)?;
        self.check_gates(transcript.challenges)?;
        self.check_equations(transcript)
    }
}
