// Tries a step of a bill on a page of a given length, for each line of standard input: how many lines the bill has
// before, the step, the length of the page, and for a line its reading. The bill is then totalled on a long page. What
// became of the step is printed, and the bill.
#![tactic(auto)]

mod bills; // a bill at any of its steps
mod case; // a step to try, from a line
mod tried; // what became of it

use crate::case::Case;
use crate::tried::Tried;
use std::io::{BufRead, BufReader, Write};

fn main(rt: HostRuntime) -> anyhow::Result<()> {
    let heap = rt.alloc();
    for line in BufReader::new(heap, rt.reader())?.lines(heap) {
        let case = Case::read(line?.as_str())?;
        let mut page = [b'.'; 2600];
        let tried = Tried::of(&case, &mut page);
        println!(rt; "{tried}")?;
        let bill = page.get(..tried.whole).unwrap_or_default();
        rt.stdout().write_all(bill)?;
    }
    Ok(())
}
