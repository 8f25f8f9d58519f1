//! A mark that the yard knows in its kind.
ghost use Rattle.std.specs.Prelude.{◌≡◌, ◌-◌, true, MatchOption, ◌≢◌};
ghost use Rattle.rebar.specs.Ranges.{main_marks};
ghost use Rattle.stock.specs.declared.kind.Kind.{Kind};
ghost use Rattle.stock.specs.Kinds.{kind_number, known};

use crate::kind::Kind;

/// A mark that the yard knows in its kind: main bars from 3 to 11, ties from 3 to 5.
#[derive(Clone, Copy)]
pub struct StockMark {
    pub kind: Kind,
    pub mark: u8,
    ghost listed: { known kind mark ≡ true },
}

impl StockMark {
    /// The mark of the kind with this number, where the yard knows it.
    pub fn new(kind: u8, mark: u8) -> Option<StockMark>
        ensures known_marks_alone { MatchOption result
            ((k : Kind) → kind_number k ≡ kind → known k mark ≢ true)
            (λ m. (kind ≡ kind_number m.kind) × (m.mark ≡ mark)) }
    {
        let kind = Kind::try_from(kind).ok()?;
        if kind.knows(mark) {
            Some(StockMark { kind, mark })
        } else {
            None
        }
    }

    // The place of the mark in the row of its kind.
    pub(crate) fn place(&self) -> usize
        ensures { result ≡ self.now.mark - main_marks.least }
    {
        (self.mark - 3) as usize
    }
}
