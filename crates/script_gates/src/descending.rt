// Splitting down a whole rule: what a line `rule split` is answered.
ghost use Rattle.std.specs.Prelude.{◌≡◌, ◌<◌, ◌≤◌, length, IfOk};
ghost use Rattle.bounded.specs.Rows.{items};
ghost use Rattle.rules.specs.Texts.{rows_in};
ghost use Rattle.descent.specs.Descents.{before};
ghost use Rattle.script_gates.specs.SplitReplies.{Splits, SplitTo, SaysSplit};

use crate::answering::{scalar, take_scalars, write_scalars};
use crate::gate::Challenges;
use bounded::Row;
use descent::{share_count, split_down};
use fields::{Field, Scalars};
use rules::Table;
use std::fmt;
use words::{Expected, Fault, Unanswered, Words};

// Splits a challenge down a rule with the numbers as shares.
fn split(
    scalars: &Scalars,
    table: &Table,
    challenge: u32,
    numbers: &Row<u32, 31>,
) -> Result<Challenges, Fault>
    requires { before (rows_in table.now) (length (rows_in table.now)) ≤ length (items numbers.now) }
    ensures { IfOk result (λ x. Splits scalars.now.q (rows_in table.now) challenge (items numbers.now) x) }
{
    let own = scalar(scalars, 4, challenge)?;
    let shares = take_scalars(scalars, 5, numbers)?;
    // kept: a row lends no slice to write to, so the challenges are written to an array
    let mut slots = [own; 31];
    let challenges = &mut slots[..table.len()];
    split_down(scalars, table, own, &shares, challenges);
    Ok(Challenges(Row::of(own, challenges)))
}

// What a split down a rule comes to: refused where q is out of range or no prime.
fn split_modulo(
    q: u32,
    table: &Table,
    challenge: u32,
    numbers: &Row<u32, 31>,
) -> Result<Challenges, Unanswered>
    requires { before (rows_in table.now) (length (rows_in table.now)) ≤ length (items numbers.now) }
    ensures { SplitTo q (rows_in table.now) challenge (items numbers.now) result }
{
    let scalars = Scalars::new(q)?;
    Ok(split(&scalars, table, challenge, numbers)?)
}

// The words that are left, as so many numbers.
fn read_numbers(words: &mut Words, count: usize) -> Result<Row<u32, 31>, Fault>
    requires { count ≤ 31 }
    ensures { IfOk result (λ row. length (items row) ≡ count) }
{
    let mut numbers = Row::blank(0);
    for _ in 0..count {
        numbers.push(words.number()?);
    }
    words.end()?;
    Ok(numbers)
}

// What a line `rule split` comes to with the rule that was read: what is missing in it, or the challenges.
pub fn answer_split(table: &Table, line: &[u8]) -> Result<Challenges, Unanswered>
    ensures { SaysSplit (rows_in table.now) result }
{
    let mut words = Words::new(line);
    let _rule = words.word();
    let _split = words.word();
    let q = words.number()?;
    let challenge = words.number()?;
    let count = share_count(table);
    // kept: no rule takes more than 15, but that count is not proved
    if count > 31 {
        return Err(Unanswered::Fault(Fault {
            place: 5,
            expected: Expected::End,
        }));
    }
    let numbers = read_numbers(&mut words, count)?;
    split_modulo(q, table, challenge, &numbers)
}

impl fmt::Display for Challenges {
    fn fmt<W: fmt::Write>(&self, f: &mut fmt::Formatter<W>) -> fmt::Result {
        write!(f, "challenges")?;
        write_scalars(f, &self.0)
    }
}
