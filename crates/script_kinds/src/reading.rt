// Commands on leaf kinds, read from the words of a line.
ghost use Rattle.std.specs.Prelude.{◌≡◌};
ghost use Rattle.script_kinds.specs.KindCommands.{verb_of, question_at, kind_command};

use kinds::Image;
use words::{Expected, Fault, Words};

// What is asked of one kind.
#[derive(Clone, Copy, PartialEq, Eq)]
pub enum Question {
    // are these words an image?
    Test(Image),
    // the product of two images
    Multiply(Image, Image),
    // the neutral image
    Neutral,
    // the image of a pair
    Key((u32, u32)),
    // the power of an image
    Power(Image, u32),
}

#[derive(Clone, Copy, PartialEq, Eq)]
pub enum KindCommand {
    // what the set is
    Set,
    // a question to the kind with this number
    Ask(u8, Question),
}

// The second word of a command on leaf kinds.
// kept: an enum, and no functions that are handed about: contracts say what each word is read as
#[derive(Clone, Copy, PartialEq, Eq, Debug)]
pub enum Verb {
    Set,
    Test,
    Multiply,
    Neutral,
    Key,
    Power,
}

fn read_verb(word: &[u8]) -> Option<Verb>
    ensures { result ≡ verb_of word.now }
{
    match word {
        b"set" => Some(Verb::Set),
        b"test" => Some(Verb::Test),
        b"multiply" => Some(Verb::Multiply),
        b"neutral" => Some(Verb::Neutral),
        b"key" => Some(Verb::Key),
        b"power" => Some(Verb::Power),
        _ => None,
    }
}

// The question from the words after the kind's number; a set has none.
fn read_question(verb: Verb, words: &mut Words) -> Result<Question, Fault>
    ensures { result ≡ question_at verb words.old.place words.old.rest.now }
{
    match verb {
        Verb::Test => {
            let [a, b, c, d] = words.numbers::<4>()?;
            Ok(Question::Test(Image((a, b), (c, d))))
        }
        Verb::Multiply => {
            let [a, b, c, d, s, t, u, v] = words.numbers::<8>()?;
            Ok(Question::Multiply(Image((a, b), (c, d)), Image((s, t), (u, v))))
        }
        Verb::Key => {
            let [u, v] = words.numbers::<2>()?;
            Ok(Question::Key((u, v)))
        }
        Verb::Power => {
            let [a, b, c, d, exponent] = words.numbers::<5>()?;
            Ok(Question::Power(Image((a, b), (c, d)), exponent))
        }
        // kept: a set is read before; an enum of the other five verbs would be the same list again
        Verb::Neutral | Verb::Set => {
            words.end()?;
            Ok(Question::Neutral)
        }
    }
}

// The command from the words after `kind`.
pub fn read(words: &mut Words) -> Result<KindCommand, Fault>
    ensures { result ≡ kind_command words.old.place words.old.rest.now }
{
    let verb = words.read(Expected::KindVerb, read_verb)?;
    if verb == Verb::Set {
        words.end()?;
        return Ok(KindCommand::Set);
    }
    let kind = words.byte()?;
    let question = read_question(verb, words)?;
    Ok(KindCommand::Ask(kind, question))
}
