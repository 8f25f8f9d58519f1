// Counts the questions that the search puts to a pile, beside the least that must be put about one cage at a time. Reads a beam on
// each line of standard input: the main marks in stock, the tie marks and the bytes of its card, all in hexadecimal.
#![tactic(auto)]

mod asked; // what a search asked
mod case; // a beam and a stock from a line
mod counted; // a book that counts its questions
mod least; // the least questions for a decision
mod ratios; // questions over the least

use crate::asked::Asked;
use crate::case::Case;
use crate::ratios::Ratios;

fn main(rt: HostRuntime) -> anyhow::Result<()> {
    let heap = rt.alloc();
    let mut ratios = Ratios::new(heap);
    for line in rt.lines(heap) {
        let case = Case::read(heap, line?.as_str())?;
        let asked = Asked::of(heap, &case)?;
        println!(rt; "{asked}")?;
        ratios.add(&case, &asked)?;
    }
    ratios.print(&rt)?;
    Ok(())
}
