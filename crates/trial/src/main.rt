// Worked figures beside what the crates answer: questions from standard input, one line printed for each. The questions and
// the lines that are wanted come from tools/worked_cases.py; the expected values of the tests are worked by hand.
#![tactic(auto)]

mod answers; // the line of each question
#[cfg(test)]
mod articles; // answers of the books for the reference beam
#[cfg(test)]
mod cards; // beams and faults of cards
mod questions; // the questions of a stream, as bytes
#[cfg(test)]
mod reference; // the reference beam's card
#[cfg(test)]
mod searches; // decisions of the search
mod sheets; // a sheet on a yard layer over approved rows, and what its places show
#[cfg(test)]
mod streams; // lines of the console

use crate::answers::answer_all;
use std::io::{Read, Write};

fn main(rt: HostRuntime) -> anyhow::Result<()> {
    let heap = rt.alloc();
    let mut stream = Vec::new(heap);
    rt.stdin().read_to_end(&mut stream)?;
    let lines = answer_all(heap, stream.as_slice())?;
    rt.stdout().write_all(lines.as_bytes())?;
    Ok(())
}
