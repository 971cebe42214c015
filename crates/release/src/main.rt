// Runs a script: the file that the first argument names, or else the standard input.
#![tactic(auto)]

use anyhow::anyhow;
use script::Session;
use std::io::{BufWriter, Read, Write};
use std::{env, fs};
use words::{Lines, Unanswered};

fn input(rt: &HostRuntime) -> anyhow::Result<Vec<u8>> {
    let mut args = env::args(rt)?;
    let _program = args.next();
    let Some(path) = args.next() else {
        let mut text = Vec::new(rt.alloc());
        rt.stdin().read_to_end(&mut text)?;
        return Ok(text);
    };
    // kept: no `map_err`, since the message is made by a call that may fail itself
    match fs::read(rt, path.as_str()) {
        Ok(text) => Ok(text),
        Err(why) => Err(anyhow!(format!(in rt.alloc(); "cannot read {path}: {why}")?)),
    }
}

fn run(rt: &HostRuntime) -> anyhow::Result<()> {
    let text = input(rt)?;
    let mut out = BufWriter::new(rt.alloc(), rt.stdout())?;
    let mut session = Session::new();
    for (number, line) in (1u64..).zip(Lines::new(&text)) {
        match session.answer(line) {
            Ok(Some(reply)) => writeln!(out, "{reply}")?,
            Ok(None) => {}
            Err(Unanswered::Fault(fault)) => writeln!(out, "line {number}: {fault}")?,
            Err(Unanswered::Refused(why)) => writeln!(out, "{why}")?,
        }
    }
    out.flush()?;
    Ok(())
}

fn main(rt: HostRuntime) -> anyhow::Result<()> {
    run(&rt)
}
