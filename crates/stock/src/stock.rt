//! Which bar marks are in stock.
ghost use Rattle.std.specs.Prelude.{◌≡◌};
ghost use Rattle.stock.specs.declared.kind.Kind.TheVariants.{Main, Tie};
ghost use Rattle.stock.specs.Stock.{IsEmpty, row, has, with_mark, offers_cages};

use crate::kind::Kind;
use crate::stock_mark::StockMark;
use rebar::{Bars, Ties};

/// Which marks are in, for the bars of a face and for ties, from mark 3 on, in fixed memory.
#[derive(Clone, Copy)]
pub struct Stock {
    pub main: [bool; 9],
    pub tie: [bool; 3],
}

impl Stock {
    /// No mark is in.
    pub fn empty() -> Stock
        ensures no_mark_is_in { IsEmpty result }
    {
        Stock {
            main: [false; 9],
            tie: [false; 3],
        }
    }

    // Which marks of a kind are in, from mark 3 on.
    fn row(&self, kind: Kind) -> &[bool]
        ensures { result.now ≡ row self.now kind }
    {
        match kind {
            Kind::Main => &self.main,
            Kind::Tie => &self.tie,
        }
    }

    /// Whether the mark of these bars is in.
    pub fn has_bars(&self, bars: &Bars) -> bool
        ensures whether_the_mark_is_in { result ≡ has self.now Main bars.now.mark }
    {
        self.holds(&StockMark {
            kind: Kind::Main,
            mark: bars.mark,
        })
    }

    /// Whether the mark of these ties is in.
    pub fn has_ties(&self, ties: &Ties) -> bool
        ensures whether_the_mark_is_in { result ≡ has self.now Tie ties.now.mark }
    {
        self.holds(&StockMark {
            kind: Kind::Tie,
            mark: ties.mark,
        })
    }

    /// Whether this mark is in.
    pub fn holds(&self, mark: &StockMark) -> bool
        ensures whether_the_mark_is_in { result ≡ has self.now mark.now.kind mark.now.mark }
    {
        self.row(mark.kind)[mark.place()]
    }

    /// Sets this mark in or out.
    pub fn set(&mut self, mark: &StockMark, is_in: bool)
        ensures this_mark_alone_is_set { self.new
            ≡ with_mark self.old mark.now.kind mark.now.mark is_in }
    {
        match mark.kind {
            Kind::Main => self.main[mark.place()] = is_in,
            Kind::Tie => self.tie[mark.place()] = is_in,
        }
    }

    /// Whether some main mark and some tie mark is in.
    pub fn offers_cages(&self) -> bool
        ensures whether_a_mark_of_each_kind_is_in { result ≡ offers_cages self.now }
    {
        self.main.contains(&true) && self.tie.contains(&true)
    }
}
