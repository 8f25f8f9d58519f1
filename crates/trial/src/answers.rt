use crate::questions::{Limits, Pair, Question, Reader};
use crate::sheets::run_sheet;
use books::approved::{Approved, ApprovedRow};
use books::book::Book;
use books::general::General;
use books::pile::STANDARD_PILE;
use books::yard::Yard;
use card::fault::Fault;
use card::reader::read_card;
use std::alloc::{AllocError, Global};
use std::fmt::Write;

// The yard layer with these numbers over a book.
fn yard_over<B: Book>(below: B, limits: &Limits) -> Yard<B> {
    Yard {
        below,
        most_bars: limits.most_bars,
        least_spacing: limits.least_spacing,
        one_mark: limits.one_mark,
    }
}

// The line of a question whose card is refused.
fn write_fault(lines: &mut String, letter: char, fault: &Fault) -> Result<(), AllocError> {
    let kind = u8::from(fault.kind);
    let place = fault.place;
    writeln!(lines, "{letter} REFUSED {kind} {place}")
}

// What the general book and the frame layer over it answer, and the steel.
fn write_formulas(lines: &mut String, pair: &Pair) -> Result<(), AllocError> {
    let beam = match read_card(pair.card) {
        Ok(beam) => beam,
        Err(fault) => return write_fault(lines, 'Q', &fault),
    };
    let general = General.check(&beam, &pair.cage);
    let framed = STANDARD_PILE.check(&beam, &pair.cage);
    let steel = beam.steel(&pair.cage);
    writeln!(lines, "Q {general} {framed} {steel}")
}

// What the approved book answers, and the yard layer over it and over the general book.
fn write_yard(
    lines: &mut String,
    limits: &Limits,
    rows: &[ApprovedRow],
    pair: &Pair,
) -> Result<(), AllocError> {
    let beam = match read_card(pair.card) {
        Ok(beam) => beam,
        Err(fault) => return write_fault(lines, 'Y', &fault),
    };
    let book = Approved { rows };
    let approved = book.check(&beam, &pair.cage);
    let over_approved = yard_over(book, limits).check(&beam, &pair.cage);
    let over_general = yard_over(General, limits).check(&beam, &pair.cage);
    writeln!(lines, "Y {approved} {over_approved} {over_general}")
}

// Answers one question.
fn answer(
    lines: &mut String,
    rows: &mut Vec<ApprovedRow>,
    question: &Question,
) -> Result<(), AllocError> {
    match question {
        Question::Formulas(pair) => write_formulas(lines, pair),
        Question::Row(row) => Ok(rows.push(*row)?),
        Question::Yard(limits, pair) => write_yard(lines, limits, rows.as_slice(), pair),
        Question::Sheet(limits, orders) => {
            let rows = rows.as_slice();
            run_sheet(lines, yard_over(Approved { rows }, limits), orders)
        }
    }
}

// The lines of a stream of questions.
pub(crate) fn answer_all(heap: Global, stream: &[u8]) -> Result<String, AllocError> {
    let mut lines = String::new(heap);
    let mut rows = Vec::new(heap);
    let mut reader = Reader { rest: stream };
    for _ in 0..stream.len() {
        let Some(question) = reader.question() else {
            break;
        };
        answer(&mut lines, &mut rows, &question)?;
    }
    if !reader.rest.is_empty() {
        writeln!(lines, "STOP")?;
    }
    Ok(lines)
}
