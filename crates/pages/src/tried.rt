ghost use Rattle.std.specs.Prelude.{◌≡◌, count_by, ◌==◌};
ghost use Rattle.pages.specs.Tries.{Filled, Tries, Made};

use crate::bills::{Bill, Stepped, begun, lined, totalled};
use crate::case::{Case, Step};
use bill::refusal::Refusal;
use std::fmt;

// What became of a step: why it was refused, if it was; how many bytes the bill had then, and how many bytes of the page
// were as before; and how many bytes the whole bill has.
#[derive(Clone, Copy)]
pub(crate) struct Tried {
    refusal: Option<Refusal>,
    written: usize,
    left: usize,
    pub(crate) whole: usize,
}

// How many bytes of the page were never written.
fn unwritten(page: &[u8]) -> usize
    ensures { result ≡ count_by (λ b. b == 46) page.now }
{
    page.iter().filter(|byte| **byte == b'.').count()
}

// The step on the first bytes of the page, after the lines before it on the whole page.
fn stepped(case: &Case, page: &mut [u8]) -> Stepped
    ensures step_after_the_lines { Tries case.now page.old result page.new }
{
    let length = case.page.min(page.len());
    match case.step {
        Step::Begin => begun(&mut page[..length]),
        Step::Line => {
            let bill = filled(case, page);
            lined(bill, &mut page[..length], &case.tried)
        }
        Step::Total => {
            let bill = filled(case, page);
            totalled(bill, &mut page[..length])
        }
    }
}

// A bill with the lines before the step.
#[tactic(auto, using(crate::proofs::Tries::begun_filled, crate::proofs::Tries::filled_more))]
fn filled(case: &Case, page: &mut [u8]) -> Bill
    ensures { Filled case.now.lines case.now.chosen page.old result page.new }
{
    let mut bill = begun(page).left();
    for _ in 0..case.lines {
        bill = lined(bill, page, &case.chosen).left();
    }
    bill
}

impl Tried {
    // Tries the step, and then totals the bill on the whole page.
    pub(crate) fn of(case: &Case, page: &mut [u8]) -> Tried
        ensures step_and_total { Made case.now page.old result page.new }
    {
        let Stepped { bill, refusal } = stepped(case, page);
        let written = bill.written();
        let left = unwritten(page);
        let whole = totalled(bill, page).left().end();
        Tried {
            refusal,
            written,
            left,
            whole,
        }
    }
}

impl fmt::Display for Tried {
    fn fmt<W: fmt::Write>(&self, f: &mut fmt::Formatter<W>) -> fmt::Result {
        match self.refusal {
            Some(refusal) => write!(f, "REFUSED {}", u8::from(refusal))?,
            None => write!(f, "OK")?,
        }
        write!(f, " {} {}", self.written, self.left)
    }
}
