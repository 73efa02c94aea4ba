// audit SHEET ANSWER: holds the plan of an answer file against a sheet file, clause by clause and pin by pin.
#![tactic(auto)]

use anyhow::anyhow;
use std::process::ExitCode;
use std::{env, fs};
use verdict::{Verdict, audit};

fn main(rt: HostRuntime) -> ExitCode {
    match run(&rt) {
        Ok(Verdict::Breaks { .. }) => ExitCode::FAILURE,
        Ok(_) => ExitCode::SUCCESS,
        Err(e) => {
            let _ = eprintln!(rt; "audit: {e}");
            ExitCode::FAILURE
        }
    }
}

// Prints the audit of the two files that the arguments name, and gives its verdict.
fn run(rt: &HostRuntime) -> anyhow::Result<Verdict> {
    let mut words = env::args(rt)?.skip(1);
    let (Some(sheet), Some(answer), None) = (words.next(), words.next(), words.next()) else {
        return Err(anyhow!("usage: audit SHEET ANSWER"));
    };
    let sheet = contents(rt, sheet.as_str())?;
    let answer = contents(rt, answer.as_str())?;
    let report = audit(rt.alloc(), sheet.as_slice(), answer.as_slice())?;
    rt.print(report.text.as_str())?;
    Ok(report.verdict)
}

// The bytes of a file. A `match`, since making the message can fail.
fn contents(rt: &HostRuntime, path: &str) -> anyhow::Result<Vec<u8>> {
    match fs::read(rt, path) {
        Ok(bytes) => Ok(bytes),
        Err(e) => Err(anyhow!(format!(in rt.alloc(); "cannot read {path}: {e}")?)),
    }
}
