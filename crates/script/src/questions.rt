// What is asked of a group, one text for every group.
ghost use Rattle.std.specs.Prelude.{◌≡◌, T, IfOk};
ghost use Rattle.script.specs.Questions.{element_at, answer_to};

use crate::group_commands::GroupReply;
use groups::{Group, power};
use words::{Expected, Fault, Kind};

// Elements are given by their two words.
#[derive(Clone, Copy, PartialEq, Eq, Debug)]
pub enum Question {
    // are these words an element?
    Element((u32, u32)),
    // the product of two elements
    Multiply((u32, u32), (u32, u32)),
    // the power of an element
    Power((u32, u32), u32),
}

// The element that the words at a place of the line stand for.
fn element<G: Group>(
    group: &G,
    kind: Kind,
    place: u32,
    words: (u32, u32),
) -> Result<G::Element, Fault>
    ensures value { result ≡ element_at (G.Group.group group.now) kind place words }
    ensures member { IfOk result (λ x. T ((G.Monoid.monoid group.now tt).member x)) }
{
    group.from_words(words).ok_or(Fault {
        place,
        expected: Expected::Element(kind),
    })
}

pub fn ask<G: Group>(group: &G, kind: Kind, question: Question) -> Result<GroupReply, Fault>
    ensures { result ≡ answer_to (G.Monoid.monoid group.now tt) (G.Group.group group.now) kind question }
{
    match question {
        Question::Element(a) => Ok(GroupReply::Element(group.from_words(a).is_some())),
        Question::Multiply(a, b) => {
            let x = element(group, kind, 3, a)?;
            let y = element(group, kind, 5, b)?;
            let words = group.to_words(&group.product((), &x, &y));
            Ok(GroupReply::Product(words.0, words.1))
        }
        Question::Power(a, exponent) => {
            let x = element(group, kind, 3, a)?;
            let words = group.to_words(&power(group, (), &x, exponent));
            Ok(GroupReply::Power(words.0, words.1))
        }
    }
}
