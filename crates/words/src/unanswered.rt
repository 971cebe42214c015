// Why a line is not answered.
ghost use Rattle.std.specs.Prelude.{◌≡◌};
ghost use Rattle.words.specs.declared.unanswered.Unanswered.TheVariants as why;

use crate::fault::Fault;
use refusals::Refusal;
use std::fmt;

#[derive(Clone, Copy, PartialEq, Eq, Debug)]
pub enum Unanswered {
    // it is no command
    Fault(Fault),
    // what it asks is refused
    Refused(Refusal),
}

impl From<Fault> for Unanswered {
    ghost from_gives = { λ fault unanswered. unanswered ≡ why.Fault fault };

    fn from(fault: Fault) -> Unanswered {
        Unanswered::Fault(fault)
    }
}

impl From<Refusal> for Unanswered {
    ghost from_gives = { λ refusal unanswered. unanswered ≡ why.Refused refusal };

    fn from(refusal: Refusal) -> Unanswered {
        Unanswered::Refused(refusal)
    }
}

impl fmt::Display for Unanswered {
    fn fmt<W: fmt::Write>(&self, f: &mut fmt::Formatter<W>) -> fmt::Result {
        match self {
            Unanswered::Fault(fault) => write!(f, "{fault}"),
            Unanswered::Refused(refusal) => write!(f, "{refusal}"),
        }
    }
}
