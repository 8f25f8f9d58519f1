use crate::case::Case;
use crate::counted::Counted;
use crate::least::least_questions;
use books::pile::STANDARD_PILE;
use search::decision::Decision;
use search::lightest::lightest_cage;
use std::alloc::{AllocError, Global};
use std::cell::Cell;
use std::fmt;

// A decision, how many questions the search put, and the least that must be put about one cage at a time.
#[derive(Clone, Copy)]
pub(crate) struct Asked {
    decision: Decision,
    questions: u64,
    least: u64,
}

impl Asked {
    // What the search asks of the frame layer over the general book.
    pub(crate) fn of(heap: Global, case: &Case) -> Result<Asked, AllocError> {
        let pile = Counted {
            below: STANDARD_PILE,
            questions: Cell::new(0),
        };
        let decision = lightest_cage(&pile, &case.beam, &case.stock);
        let least = least_questions(heap, case, &decision)?;
        Ok(Asked {
            decision,
            questions: pile.questions.get(),
            least,
        })
    }

    // Whether a cage passed.
    pub(crate) fn is_chosen(&self) -> bool {
        matches!(self.decision, Decision::Chosen(_))
    }

    // The questions over the least, in thousandths, rounded up.
    pub(crate) fn in_thousandths(&self) -> u64 {
        self.questions
            .saturating_mul(1000)
            .div_ceil(self.least.max(1))
    }
}

impl fmt::Display for Asked {
    fn fmt<W: fmt::Write>(&self, f: &mut fmt::Formatter<W>) -> fmt::Result {
        match self.decision {
            Decision::Chosen(choice) => {
                let [bottom, bottoms, top, tops, tie, spacing] = choice.cage.numbers();
                write!(
                    f,
                    "{bottoms}#{bottom} {tops}#{top} #{tie}@{spacing} {}",
                    choice.steel
                )?;
            }
            Decision::Impossible(number) => write!(f, "none {number}")?,
        }
        write!(f, ": {} questions, least {}", self.questions, self.least)
    }
}
