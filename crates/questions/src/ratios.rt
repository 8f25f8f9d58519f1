use crate::asked::Asked;
use crate::case::Case;
use std::alloc::{AllocError, Global};
use std::io;

// The questions over the least, in thousandths: of beams with a cage from all marks, of those with a cage from few marks, and of
// the impossible ones.
#[derive(Drop)]
pub(crate) struct Ratios {
    all_marks: Vec<u64>,
    few_marks: Vec<u64>,
    impossible: Vec<u64>,
}

// Prints how many there are, their median and the greatest.
fn print_spread(rt: &impl Print, what: &str, thousandths: &mut [u64]) -> io::Result<()> {
    thousandths.sort_unstable();
    let count = thousandths.len();
    let median = thousandths.get(count / 2).copied().unwrap_or(0);
    let worst = thousandths.last().copied().unwrap_or(0);
    println!(rt;
        "{count} {what}: median {}.{:03}, worst {}.{:03}",
        median / 1000,
        median % 1000,
        worst / 1000,
        worst % 1000
    )
}

impl Ratios {
    pub(crate) fn new(heap: Global) -> Ratios {
        Ratios {
            all_marks: Vec::new(heap),
            few_marks: Vec::new(heap),
            impossible: Vec::new(heap),
        }
    }

    // Adds the ratio of one more case.
    pub(crate) fn add(&mut self, case: &Case, asked: &Asked) -> Result<(), AllocError> {
        let of_its_kind = match (asked.is_chosen(), case.has_all_marks()) {
            (false, _) => &mut self.impossible,
            (true, true) => &mut self.all_marks,
            (true, false) => &mut self.few_marks,
        };
        of_its_kind.push(asked.in_thousandths())?;
        Ok(())
    }

    // Prints the spread of each kind.
    pub(crate) fn print(&mut self, rt: &impl Print) -> io::Result<()> {
        print_spread(rt, "chosen from all marks", &mut self.all_marks)?;
        print_spread(rt, "chosen from few marks", &mut self.few_marks)?;
        print_spread(rt, "impossible", &mut self.impossible)
    }
}
