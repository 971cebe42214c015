// What a command on gates is answered.
// kept: casts by `as`: nothing is lost, as the check proves; behind a `From` a number is a new one to the proof, and a `TryFrom` has a refusal that never comes
ghost use Rattle.std.specs.Prelude.{◌≡◌, ◌<◌, ◌≤◌, T, length, IfOk};
ghost use Rattle.fields.specs.Scalars.{scalar, scalars_model};
ghost use Rattle.polynomials.specs.Polynomials.{Members};
ghost use Rattle.splits.specs.Gates.{Balanced, Agree};
ghost use Rattle.splits.specs.Marks.{missing};
ghost use Rattle.bounded.specs.Rows.{items};
ghost use Rattle.script_gates.specs.GateReplies.{scalar_at, numbers_of, Takes, Fills, Checked, Answers, order_of, ComesTo, Says};

use crate::gate::{Children, Gate, GateCommand};
use crate::reading::read;
use bounded::Row;
use fields::{Field, Scalar, Scalars};
use splits::{balances, split};
use std::fmt;
use words::{Expected, Fault, Unanswered, Words};

#[derive(Clone, Copy)]
pub enum GateReply {
    Children(Children),
    Balanced(bool),
}

// The number at a place of the line as a scalar.
pub fn scalar(scalars: &Scalars, place: u32, value: u32) -> Result<Scalar, Fault>
    ensures { result ≡ scalar_at scalars.now.q place value }
{
    if value < scalars.order() {
        Ok(Scalar::new(value))
    } else {
        Err(Fault {
            place,
            expected: Expected::Scalar,
        })
    }
}

// The numbers as scalars; the first stands at a place of the line, and the others after it.
pub(crate) fn take_scalars<const N: usize>(
    scalars: &Scalars,
    place: u32,
    numbers: &Row<u32, N>,
) -> Result<Row<Scalar, N>, Fault>
    requires { N ≤ 31 }
    ensures { IfOk result (λ row. Takes scalars.now.q (items numbers.now) (items row)) }
{
    let mut taken = Row::blank(scalars.zero());
    for (i, number) in numbers.iter().enumerate() {
        taken.push(scalar(scalars, place.saturating_add(i as u32), *number)?);
    }
    Ok(taken)
}

// The own challenge of a gate, and those of its children, 0 where one is not known.
fn challenges(scalars: &Scalars, gate: &Gate) -> Result<(Scalar, Children), Fault>
    ensures { IfOk result (λ x. (x.0 ≡ scalar gate.now.own) × (gate.now.own < scalars.now.q) × Takes scalars.now.q (numbers_of gate.now) (items x.1)) }
{
    let own = scalar(scalars, gate.place, gate.own)?;
    let numbers = gate.children.map(0, |child| child.unwrap_or(0));
    let children = take_scalars(scalars, gate.place.saturating_add(1), &numbers)?;
    Ok((own, children))
}

// Splits an own challenge over children: keeps the known ones and writes the others.
fn split_children(scalars: &Scalars, own: Scalar, known: &[bool], taken: &Children) -> Children
    requires sizes { length known.now ≡ length (items taken.now) }
    requires elements { let m = scalars_model scalars.now.q in (T (m.member own)) × (Members m (items taken.now)) }
    ensures long { length (items result) ≡ length (items taken.now) }
    ensures balanced { Balanced (scalars_model scalars.now.q) (missing known.now) own (items result) }
    ensures kept { Agree (scalars_model scalars.now.q) known.now (items result) (items taken.now) }
{
    // kept: a row lends no slice to write to, so the children are split in an array
    let mut slots = [own; 8];
    let children = &mut slots[..taken.len()];
    children.copy_from_slice(taken);
    split(scalars, own, known, children);
    Row::of(own, children)
}

// Splits at a gate: keeps the known children and writes the others.
fn filled(scalars: &Scalars, gate: &Gate) -> Result<Children, Fault>
    ensures { IfOk result (λ x. Fills scalars.now.q gate.now (items x)) }
{
    let (own, taken) = challenges(scalars, gate)?;
    let known = gate.children.map(false, |child| child.is_some());
    Ok(split_children(scalars, own, &known, &taken))
}

// Whether a gate balances that wants so many children.
fn checked(scalars: &Scalars, wanted: u32, gate: &Gate) -> Result<bool, Fault>
    ensures { IfOk result (λ b. Checked scalars.now.q wanted gate.now b) }
{
    if wanted == 0 || wanted as usize > gate.children.len() {
        return Err(Fault {
            place: 4,
            expected: Expected::Wanted,
        });
    }
    let (own, children) = challenges(scalars, gate)?;
    Ok(balances(scalars, wanted as usize, own, &children))
}

fn answer(scalars: &Scalars, command: GateCommand) -> Result<GateReply, Fault>
    ensures { IfOk result (λ x. Answers scalars.now.q command x) }
{
    match command {
        GateCommand::Fill(gate) => Ok(GateReply::Children(filled(scalars, &gate)?)),
        GateCommand::Check(wanted, gate) => {
            Ok(GateReply::Balanced(checked(scalars, wanted, &gate)?))
        }
    }
}

fn order_of(command: GateCommand) -> u32
    ensures { result ≡ order_of command }
{
    match command {
        GateCommand::Fill(gate) | GateCommand::Check(_, gate) => gate.q,
    }
}

// What a command on gates comes to: refused where q is out of range or no prime.
pub fn obey(command: GateCommand) -> Result<GateReply, Unanswered>
    ensures { ComesTo command result }
{
    let scalars = Scalars::new(order_of(command))?;
    Ok(answer(&scalars, command)?)
}

// What a line comes to whose first word is `gate`: what is missing in it, or what its command comes to.
pub fn answer_gate(line: &[u8]) -> Result<GateReply, Unanswered>
    ensures { Says result }
{
    let mut words = Words::new(line);
    let _gate = words.word();
    obey(read(&mut words)?)
}

pub(crate) fn write_scalars<W: fmt::Write>(
    f: &mut fmt::Formatter<W>,
    scalars: &[Scalar],
) -> fmt::Result {
    for scalar in scalars {
        let value = scalar.value();
        write!(f, " {value}")?;
    }
    Ok(())
}

impl fmt::Display for GateReply {
    fn fmt<W: fmt::Write>(&self, f: &mut fmt::Formatter<W>) -> fmt::Result {
        match self {
            GateReply::Children(children) => {
                write!(f, "children")?;
                write_scalars(f, children)
            }
            GateReply::Balanced(true) => write!(f, "balanced yes"),
            GateReply::Balanced(false) => write!(f, "balanced no"),
        }
    }
}
