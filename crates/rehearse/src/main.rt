// Plays a script from standard input, and prints an answer for each of its lines.
#![tactic(auto)]

mod lines;
mod rehearsal;

use lines::Lines;
use orders::Refusal;
use rehearsal::{Answer, State};
use std::io;
use std::io::{BufWriter, Read, Write};

// The state of every house, as `show` has it.
fn show<W: Write>(out: &mut W, state: State) -> io::Result<()> {
    for house in 0..state.houses.unwrap_or(0) {
        writeln!(out, "house {house} start 1 file 1 safe 1")?;
    }
    Ok(())
}

fn print<W: Write>(
    out: &mut W,
    number: usize,
    state: State,
    answer: Result<Answer, Refusal>,
) -> io::Result<()> {
    match answer {
        Ok(Answer::Skipped) => Ok(()),
        Ok(Answer::Done) => writeln!(out, "{number}: ok"),
        Ok(Answer::Shown) => {
            writeln!(out, "{number}: ok")?;
            show(out, state)
        }
        Err(why) => writeln!(out, "{number}: {why}"),
    }
}

fn play<W: Write>(out: &mut W, script: &[u8]) -> io::Result<()> {
    let mut state = State { houses: None };
    for (i, line) in Lines::new(script).enumerate() {
        let answer = state.take(line);
        print(out, i + 1, state, answer)?;
    }
    Ok(())
}

fn run(rt: &HostRuntime) -> anyhow::Result<()> {
    let mut script = Vec::new(rt.alloc());
    rt.stdin().read_to_end(&mut script)?;
    let mut out = BufWriter::new(rt.alloc(), rt.stdout())?;
    play(&mut out, script.as_slice())?;
    out.flush()?;
    Ok(())
}

fn main(rt: HostRuntime) -> anyhow::Result<()> {
    run(&rt)
}
