ghost use Rattle.std.specs.Prelude.{cond, nat_eq};
ghost use Rattle.std.specs.Ordering.{on};
ghost use Rattle.std.specs.Cmp.Lexicographic.{pointwise};
ghost use Rattle.rebar.specs.Order.{numbers};

use crate::reference::{CARD, beam};
use books::book::Book;
use books::general::General;
use books::pile::STANDARD_PILE;
use rebar::beam::Beam;
use rebar::cage::{Bars, Cage, Ties};
use search::decision::Decision;
use search::lightest::lightest_cage;
use sheet::reading::Shown;
use sheet::refusal::Refusal;
use sheet::sheet::Sheet;
use std::process::Abort;
use std::test::Fail;
use stock::stock::Stock;
use stock::stock_mark::StockMark;

// A book that answers every cage alike.
#[derive(Drop)]
struct Always(u8);

impl Book for Always {
    ghost answer = { λ book beam cage. book.0 };

    fn check(&self, _beam: &Beam, _cage: &Cage) -> u8 {
        self.0
    }

    fn refusal_at_every_spacing(&self, _beam: &Beam, _cage: &Cage) -> Option<u8> {
        None
    }
}

// A book that one cage passes, and no other.
#[derive(Clone, Copy)]
struct Only(Cage);

impl Book for Only {
    ghost answer = { λ book beam cage. cond (on numbers (pointwise nat_eq) book.0 cage) 0 1 };

    fn check(&self, _beam: &Beam, cage: &Cage) -> u8 {
        if self.0.is_same(cage) { 0 } else { 1 }
    }

    fn refusal_at_every_spacing(&self, _beam: &Beam, _cage: &Cage) -> Option<u8> {
        None
    }
}

// The mark of a kind, 0 for main bars and 1 for ties.
fn known(kind: u8, mark: u8) -> Result<StockMark, Fail> {
    StockMark::new(kind, mark).ok_or_else(|| Fail::new("there is no such mark"))
}

// One main mark and one tie mark.
fn stock_of(main: u8, tie: u8) -> Result<Stock, Fail> {
    let mut stock = Stock::empty();
    stock.set(&known(0, main)?, true);
    stock.set(&known(1, tie)?, true);
    Ok(stock)
}

// Main mark 5 and tie mark 3.
fn small_stock(rt: &impl Abort) -> Result<Stock, Fail> {
    let mut stock = Stock::empty();
    let main = known(0, 5)?;
    stock.set(&main, true);
    assert!(rt; stock.holds(&main) && !stock.offers_cages());
    let tie = known(1, 3)?;
    stock.set(&tie, true);
    assert!(rt; stock.holds(&tie) && stock.offers_cages());
    Ok(stock)
}

#[test]
fn lightest_and_smallest_cage(rt: HostRuntime) -> Result<(), Fail> {
    let found = lightest_cage(&Always(0), &beam(false)?, &small_stock(&rt)?);
    let Decision::Chosen(choice) = found else {
        return Err(Fail::new("every cage passes"));
    };
    assert_eq!(rt; choice.cage.numbers(), [5, 2, 5, 2, 3, 550]);
    assert_eq!(rt; choice.steel, 4_995_300);
    Ok(())
}

#[test]
fn greatest_refusal(rt: HostRuntime) -> Result<(), Fail> {
    let found = lightest_cage(&Always(255), &beam(false)?, &small_stock(&rt)?);
    let Decision::Impossible(number) = found else {
        return Err(Fail::new("no cage passes"));
    };
    assert_eq!(rt; number, 255);
    Ok(())
}

#[test]
fn cage_at_the_end_of_the_ranges(rt: HostRuntime) -> Result<(), Fail> {
    let bars = Bars::new(11, 12).ok_or_else(|| Fail::new("there are no such bars"))?;
    let ties = Ties::new(5, 600).ok_or_else(|| Fail::new("there are no such ties"))?;
    let last = Cage {
        bottom: bars,
        top: bars,
        ties,
    };
    let found = lightest_cage(&Only(last), &beam(false)?, &stock_of(11, 5)?);
    let Decision::Chosen(choice) = found else {
        return Err(Fail::new("the last cage passes"));
    };
    assert_eq!(rt; choice.cage.numbers(), [11, 12, 11, 12, 5, 600]);
    assert_eq!(rt; choice.steel, 123_649_280);
    Ok(())
}

#[test]
fn heavier_ties(rt: HostRuntime) -> Result<(), Fail> {
    let found = lightest_cage(&General, &beam(false)?, &stock_of(5, 4)?);
    let Decision::Chosen(choice) = found else {
        return Err(Fail::new("some cage passes"));
    };
    assert_eq!(rt; choice.cage.numbers(), [5, 3, 5, 4, 4, 100]);
    assert_eq!(rt; choice.steel, 16_214_300);
    Ok(())
}

// What place 7 of a sheet shows after a design of the reference beam there.
fn designed(sheet: &mut Sheet<&Always>) -> Result<Shown, Refusal> {
    sheet.stock(0, 5, true)?;
    sheet.stock(1, 3, true)?;
    sheet.enter(7, &CARD)?;
    sheet.design(7)?;
    Ok(sheet.read(7)?.shown)
}

#[test]
fn one_book_on_two_sheets(rt: HostRuntime) {
    let book = Always(7);
    let mut first = Sheet::open(&book);
    let mut second = Sheet::open(&book);
    assert!(rt; matches!(designed(&mut first), Ok(Shown::Impossible(7))));
    assert!(rt; matches!(designed(&mut second), Ok(Shown::Impossible(7))));
}

#[test]
fn bars_too_thick(rt: HostRuntime) -> Result<(), Fail> {
    let found = lightest_cage(&STANDARD_PILE, &beam(true)?, &stock_of(11, 3)?);
    let Decision::Impossible(number) = found else {
        return Err(Fail::new("no cage passes"));
    };
    assert_eq!(rt; number, 4);
    Ok(())
}

#[test]
fn marks_by_kind(rt: HostRuntime) {
    assert!(rt; StockMark::new(0, 2).is_none());
    assert!(rt; StockMark::new(0, 3).is_some());
    assert!(rt; StockMark::new(0, 11).is_some());
    assert!(rt; StockMark::new(0, 12).is_none());
    assert!(rt; StockMark::new(1, 5).is_some());
    assert!(rt; StockMark::new(1, 6).is_none());
    assert!(rt; StockMark::new(2, 3).is_none());
}
