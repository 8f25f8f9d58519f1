use crate::case::Case;
use rebar::cage::{Bars, Cage, Ties};
use search::decision::{Choice, Decision};
use std::alloc::{AllocError, Global};

// All bars of a face and all ties from stock.
#[derive(Drop)]
struct Parts {
    bars: Vec<Bars>,
    ties: Vec<Ties>,
}

// The bars of this mark, if it is in.
fn add_bars(bars: &mut Vec<Bars>, case: &Case, mark: u8) -> Result<(), AllocError> {
    for number in 2..13 {
        if let Some(b) = Bars::new(mark, number) {
            if case.stock.has_bars(&b) {
                bars.push(b)?;
            }
        }
    }
    Ok(())
}

// The ties of this mark, if it is in.
fn add_ties(ties: &mut Vec<Ties>, case: &Case, mark: u8) -> Result<(), AllocError> {
    for step in 2..25u16 {
        if let Some(t) = Ties::new(mark, 25 * step) {
            if case.stock.has_ties(&t) {
                ties.push(t)?;
            }
        }
    }
    Ok(())
}

impl Parts {
    fn of(heap: Global, case: &Case) -> Result<Parts, AllocError> {
        let mut bars = Vec::new(heap);
        for mark in 3..12 {
            add_bars(&mut bars, case, mark)?;
        }
        let mut ties = Vec::new(heap);
        for mark in 3..6 {
            add_ties(&mut ties, case, mark)?;
        }
        Ok(Parts { bars, ties })
    }

    // How many cages there are.
    fn cages(&self) -> u64 {
        let bars = self.bars.len() as u64;
        bars.saturating_mul(bars)
            .saturating_mul(self.ties.len() as u64)
    }
}

// How many cages from stock with these bars come before a chosen one, by steel and then by their numbers.
fn before_with(case: &Case, ties: &[Ties], chosen: &Choice, bottom: Bars, top: Bars) -> u64 {
    let mut before = 0u64;
    for t in ties {
        let cage = Cage {
            bottom,
            top,
            ties: *t,
        };
        if (case.beam.steel(&cage), cage) < (chosen.steel, chosen.cage) {
            before = before.saturating_add(1);
        }
    }
    before
}

// How many cages from stock with this bottom come before a chosen one.
fn before_above(case: &Case, parts: &Parts, chosen: &Choice, bottom: Bars) -> u64 {
    let mut before = 0u64;
    for top in &parts.bars {
        before = before.saturating_add(before_with(
            case,
            parts.ties.as_slice(),
            chosen,
            bottom,
            *top,
        ));
    }
    before
}

// The least questions that tell that a decision is right, about one cage at a time: of a chosen cage, about it and every cage
// from stock that comes before it; of none, about every cage from stock.
pub(crate) fn least_questions(
    heap: Global,
    case: &Case,
    decision: &Decision,
) -> Result<u64, AllocError> {
    let parts = Parts::of(heap, case)?;
    let Decision::Chosen(chosen) = decision else {
        return Ok(parts.cages());
    };
    let mut least = 1u64;
    for bottom in &parts.bars {
        least = least.saturating_add(before_above(case, &parts, chosen, *bottom));
    }
    Ok(least)
}
