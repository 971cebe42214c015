// Commands on scalars: a sum, a product or a quotient modulo q.
ghost use Rattle.std.specs.Prelude.{◌≡◌, ◌<◌};
ghost use Rattle.script.specs.ScalarCommands.{operation_of, scalar_command, Computed, Answered, ComesTo};

use fields::{Field, Scalar, Scalars};
use script_gates::scalar;
use std::fmt;
use words::{Expected, Fault, Unanswered, Words};

// kept: an enum, and no functions that are handed about: contracts say what each word is read as
#[derive(Clone, Copy, PartialEq, Eq, Debug)]
pub enum Operation {
    Add,
    Multiply,
    Divide,
}

#[derive(Clone, Copy, PartialEq, Eq, Debug)]
pub struct ScalarCommand {
    pub operation: Operation,
    pub q: u32,
    pub a: u32,
    pub b: u32,
}

#[derive(Clone, Copy, PartialEq, Eq, Debug)]
pub enum ScalarReply {
    Sum(u32),
    Product(u32),
    Quotient(u32),
}

fn read_operation(word: &[u8]) -> Option<Operation>
    ensures { result ≡ operation_of word.now }
{
    match word {
        b"add" => Some(Operation::Add),
        b"multiply" => Some(Operation::Multiply),
        b"divide" => Some(Operation::Divide),
        _ => None,
    }
}

// The command from the words after `scalar`.
pub fn read(words: &mut Words) -> Result<ScalarCommand, Fault>
    ensures { result ≡ scalar_command words.old.place words.old.rest.now }
{
    let operation = words.read(Expected::Operation, read_operation)?;
    let [q, a, b] = words.numbers::<3>()?;
    Ok(ScalarCommand { operation, q, a, b })
}

fn compute(
    scalars: &Scalars,
    operation: Operation,
    a: Scalar,
    b: Scalar,
) -> Result<ScalarReply, Fault>
    requires { (a.0 < scalars.now.q) × (b.0 < scalars.now.q) }
    ensures { Computed operation scalars.now.q a.0 b.0 result }
{
    match operation {
        Operation::Add => Ok(ScalarReply::Sum(scalars.sum(a, b).value())),
        Operation::Multiply => Ok(ScalarReply::Product(scalars.product(a, b).value())),
        Operation::Divide => {
            if b.value() == 0 {
                return Err(Fault {
                    place: 5,
                    expected: Expected::Divisor,
                });
            }
            Ok(ScalarReply::Quotient(scalars.quotient(a, b).value()))
        }
    }
}

fn answer(scalars: &Scalars, command: ScalarCommand) -> Result<ScalarReply, Fault>
    ensures { Answered command.operation scalars.now.q command.a command.b result }
{
    let a = scalar(scalars, 4, command.a)?;
    let b = scalar(scalars, 5, command.b)?;
    compute(scalars, command.operation, a, b)
}

// What a command on scalars comes to: refused where q is out of range or no prime.
pub fn obey(command: ScalarCommand) -> Result<ScalarReply, Unanswered>
    ensures { ComesTo command result }
{
    let scalars = Scalars::new(command.q)?;
    Ok(answer(&scalars, command)?)
}

impl fmt::Display for ScalarReply {
    fn fmt<W: fmt::Write>(&self, f: &mut fmt::Formatter<W>) -> fmt::Result {
        match *self {
            ScalarReply::Sum(n) => write!(f, "sum {n}"),
            ScalarReply::Product(n) => write!(f, "product {n}"),
            ScalarReply::Quotient(n) => write!(f, "quotient {n}"),
        }
    }
}
