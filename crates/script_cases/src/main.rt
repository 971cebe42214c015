// Tries a table of cases in one session: each odd line of the input is a line of a script, the next one what is expected of it.
#![tactic(auto)]

use script::Session;
use std::alloc::{AllocError, Global};
use std::io::Read;
use words::{Lines, is};

// What comes of a line, as text.
fn said(heap: Global, session: &mut Session, line: &[u8]) -> Result<String, AllocError> {
    match session.answer(line) {
        Ok(Some(reply)) => format!(in heap; "{reply}"),
        Ok(None) => format!(in heap; "nothing"),
        Err(why) => format!(in heap; "{why}"),
    }
}

fn run(rt: &HostRuntime) -> anyhow::Result<()> {
    let mut text = Vec::new(rt.alloc());
    rt.stdin().read_to_end(&mut text)?;
    let mut session = Session::new();
    let mut lines = Lines::new(&text);
    let mut right: u64 = 0;
    let mut wrong: u64 = 0;
    while let (Some(asked), Some(expected)) = (lines.next(), lines.next()) {
        let said = said(rt.alloc(), &mut session, asked)?;
        if is(expected, said.as_str()) {
            right = right.saturating_add(1);
        } else {
            wrong = wrong.saturating_add(1);
            println!(rt; "case {}: {said}", right.saturating_add(wrong))?;
        }
    }
    println!(rt; "{right} right, {wrong} wrong")?;
    Ok(())
}

fn main(rt: HostRuntime) -> anyhow::Result<()> {
    run(&rt)
}
