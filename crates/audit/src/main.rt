// Audits the ledgers of all houses, whose paths are the arguments, that of house 0 first, and prints what it finds.
#![tactic(auto)]

mod print;
#[cfg(test)]
mod tests;

use anyhow::{anyhow, ensure};
use audit_search::{Fault, audit};
use print::write_report;
use std::io::{BufWriter, Write};
use std::{env, fs};

const USAGE: &str = "usage: audit LEDGER..   one file for each house, that of house 0 first";

// The bytes of the file at that path.
fn read_ledger(rt: &HostRuntime, path: &str) -> anyhow::Result<Vec<u8>> {
    // Not `context`: the path and the cause stand in one line.
    fs::read(rt, path).map_err(|e| anyhow!("{path}: {e}"))
}

// Prints what the audit finds, and answers whether all is sound.
fn run(rt: &HostRuntime) -> anyhow::Result<bool> {
    let mut files = Vec::new(rt.alloc());
    for path in env::args(rt)?.skip(1) {
        if path.as_str() == "--help" {
            println!(rt; "{USAGE}")?;
            return Ok(true);
        }
        files.push(read_ledger(rt, path.as_str())?)?;
    }
    ensure!(!files.is_empty(), "{USAGE}");
    let found = audit(rt.alloc(), files.as_slice());
    if matches!(found, Err(Fault::NoMemory)) {
        return Err(Fault::NoMemory.into());
    }
    let mut out = BufWriter::new(rt.alloc(), rt.stdout())?;
    write_report(&mut out, &found)?;
    out.flush()?;
    Ok(found.is_ok())
}

// The status is 0 if all is sound, else 1.
fn main(rt: HostRuntime) -> anyhow::Result<()> {
    ensure!(run(&rt)?, "not sound");
    Ok(())
}
