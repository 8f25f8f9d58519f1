use crate::questions::{Order, Reader};
use books::book::Book;
use sheet::reading::Shown;
use sheet::refusal::Refusal;
use sheet::sheet::Sheet;
use std::alloc::AllocError;
use std::fmt;
use std::fmt::Write;

// What came of an order: what its place shows, where it has one, or the refusal.
#[derive(Clone, Copy)]
struct Outcome {
    letter: char,
    number: u8,
    shown: Result<Option<Shown>, Refusal>,
}

impl fmt::Display for Outcome {
    fn fmt<W: fmt::Write>(&self, f: &mut fmt::Formatter<W>) -> fmt::Result {
        let letter = self.letter;
        let number = self.number;
        write!(f, "{letter} {number} ")?;
        match self.shown {
            Ok(None) => writeln!(f, "OK"),
            Ok(Some(Shown::Empty)) => writeln!(f, "EMPTY"),
            Ok(Some(Shown::Open)) => writeln!(f, "OPEN"),
            Ok(Some(Shown::Chosen(choice))) => {
                let [bottom, nb, top, nt, tie, spacing] = choice.cage.numbers();
                let steel = choice.steel;
                writeln!(f, "CAGE {nb}#{bottom} {nt}#{top} #{tie}@{spacing} {steel}")
            }
            Ok(Some(Shown::Impossible(article))) => writeln!(f, "NONE {article}"),
            Err(refusal) => {
                let why = u8::from(refusal);
                let place = refusal.byte_place();
                writeln!(f, "REFUSED {why} {place}")
            }
        }
    }
}

// What a place shows.
fn shown_at<P: Book>(sheet: &Sheet<P>, place: u8) -> Result<Option<Shown>, Refusal> {
    Ok(Some(sheet.read(place)?.shown))
}

// Enters a beam, and reads its place.
fn enter<P: Book>(sheet: &mut Sheet<P>, place: u8, card: &[u8]) -> Result<Option<Shown>, Refusal> {
    sheet.enter(place, card)?;
    shown_at(sheet, place)
}

// Designs a beam, and reads its place.
fn design<P: Book>(sheet: &mut Sheet<P>, place: u8) -> Result<Option<Shown>, Refusal> {
    sheet.design(place)?;
    shown_at(sheet, place)
}

// Carries out one order.
fn carry_out<P: Book>(sheet: &mut Sheet<P>, order: Order) -> Outcome {
    match order {
        Order::Stock { kind, mark, is_in } => Outcome {
            letter: 'S',
            number: mark,
            shown: sheet.stock(kind, mark, is_in).map(|()| None),
        },
        Order::Enter { place, card } => Outcome {
            letter: 'E',
            number: place,
            shown: enter(sheet, place, card),
        },
        Order::Design { place } => Outcome {
            letter: 'D',
            number: place,
            shown: design(sheet, place),
        },
    }
}

// Opens a sheet on a pile, and carries out orders on it up to their end.
pub(crate) fn run_sheet<P: Book + Drop>(
    lines: &mut String,
    pile: P,
    orders: &[u8],
) -> Result<(), AllocError> {
    let mut sheet = Sheet::open(pile);
    let mut reader = Reader { rest: orders };
    for _ in 0..orders.len() {
        let Some(order) = reader.order() else {
            break;
        };
        let outcome = carry_out(&mut sheet, order);
        write!(lines, "{outcome}")?;
    }
    Ok(())
}
