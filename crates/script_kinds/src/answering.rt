// What the supplied set answers to a command on leaf kinds.
ghost use Rattle.std.specs.Prelude.{◌≡◌};
ghost use Rattle.script_kinds.specs.KindReplies.{question_reply, answer_to, kind_reply, parts};

use crate::reading::{KindCommand, Question};
use fields::Scalar;
use groups::{CircleGroup, ResidueGroup};
use kinds::{Image, LeafKinds, image_power, image_product, key_image, neutral_image};
use refusals::Refusal;
use std::fmt;
use supplied::supplied;

#[derive(Clone, Copy, PartialEq, Eq)]
pub enum KindReply {
    // the order, the number of kinds, and the widths of the first six
    Set(u32, u8, [u8; 6]),
    Test(bool),
    Image(Image),
}

fn answer<S: LeafKinds>(set: &S, kind: u8, question: Question) -> KindReply
    ensures { result ≡ question_reply (S.LeafKinds.meaning set.now) kind question }
{
    match question {
        Question::Test(a) => KindReply::Test(set.is_image(kind, &a)),
        Question::Multiply(a, b) => KindReply::Image(image_product(set, kind, &a, &b)),
        Question::Neutral => KindReply::Image(neutral_image(set, kind)),
        Question::Key((u, v)) => {
            let key = (Scalar::new(u), Scalar::new(v));
            KindReply::Image(key_image(set, kind, key))
        }
        Question::Power(a, exponent) => KindReply::Image(image_power(set, kind, &a, exponent)),
    }
}

// What any set of leaf kinds answers.
pub fn ask<S: LeafKinds>(set: &S, command: KindCommand) -> KindReply
    ensures { result ≡ answer_to (S.LeafKinds.meaning set.now) command }
{
    match command {
        KindCommand::Set => {
            // kept: six calls; `array::from_fn` would have to make a kind's number of each index, one more and in another type
            let widths = [
                set.width(1),
                set.width(2),
                set.width(3),
                set.width(4),
                set.width(5),
                set.width(6),
            ];
            KindReply::Set(set.order(), set.count(), widths)
        }
        KindCommand::Ask(kind, question) => answer(set, kind, question),
    }
}

// What the supplied set over two groups answers; refused where their orders differ.
pub fn obey(
    residues: ResidueGroup,
    circle: CircleGroup,
    command: KindCommand,
) -> Result<KindReply, Refusal>
    ensures { result ≡ kind_reply (parts residues) (parts circle) command }
{
    Ok(ask(&supplied(residues, circle)?, command))
}

impl fmt::Display for KindReply {
    fn fmt<W: fmt::Write>(&self, f: &mut fmt::Formatter<W>) -> fmt::Result {
        match *self {
            KindReply::Set(q, count, widths) => {
                let [a, b, c, d, s, t] = widths;
                write!(f, "set q {q} kinds {count} widths {a} {b} {c} {d} {s} {t}")
            }
            KindReply::Test(true) => write!(f, "image yes"),
            KindReply::Test(false) => write!(f, "image no"),
            KindReply::Image(Image((a, b), (c, d))) => write!(f, "image {a} {b} {c} {d}"),
        }
    }
}
