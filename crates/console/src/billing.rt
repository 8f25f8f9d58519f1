//! The bill of the places that are chosen.
ghost use Rattle.std.specs.Prelude.{◌≡◌, ◌+◌, ◌<◌, ◌≤◌, length, take};
ghost use Rattle.bill.specs.Whole.{bill_text};
ghost use Rattle.sheet.specs.Shown.{shown_at};
ghost use Rattle.sheet.specs.Size.{place_count};
ghost use Rattle.console.specs.Billing.{Billed};
ghost use Rattle.console.specs.Bills.{lines_below};

use bill::bill::{Begun, Refused};
use books::book::Book;
use sheet::place::PLACES;
use sheet::sheet::Sheet;

// A page of this length has room for a bill of all places: a head of 6 bytes, lines of 38 at most,
// and a total of 22 at most.
pub(crate) const PAGE: usize = 6 + PLACES as usize * 38 + 22;

// A bill of no line yet.
fn begin<P: Book>(page: &mut [u8], sheet: &Sheet<P>) -> Begun
    requires { length page.old ≡ PAGE }
    ensures { Billed (shown_at sheet.now) 0 page.new result }
{
    let Ok(bill) = Begun::begin(page) else {
        unreachable!();
    };
    bill
}

// A line more, where the place is chosen.
fn add_line<P: Book>(bill: Begun, page: &mut [u8], sheet: &Sheet<P>, place: u8) -> Begun
    requires there { place < place_count }
    requires lines_so_far { Billed (shown_at sheet.now) place page.old bill }
    ensures { Billed (shown_at sheet.now) (place + 1) page.new result }
{
    let Ok(reading) = sheet.read(place) else {
        return bill;
    };
    match reading.shown.choice() {
        Some(_) => match bill.line(page, &reading) {
            Ok(longer) => longer,
            Err(Refused { bill, refusal: _ }) => bill,
        },
        None => bill,
    }
}

// A line for each place that is chosen, in the order of the places.
fn add_lines<P: Book>(begun: Begun, page: &mut [u8], sheet: &Sheet<P>) -> Begun
    requires { Billed (shown_at sheet.now) 0 page.old begun }
    ensures { Billed (shown_at sheet.now) place_count page.new result }
{
    let mut bill = begun;
    for place in 0..PLACES {
        bill = add_line(bill, page, sheet, place);
    }
    bill
}

// The last line, and how many bytes the bill has.
fn total<P: Book>(bill: Begun, page: &mut [u8], sheet: &Sheet<P>) -> usize
    requires { Billed (shown_at sheet.now) place_count page.old bill }
    ensures text { take result page.new ≡ bill_text (lines_below (shown_at sheet.now) place_count) }
    ensures fits { result ≤ PAGE }
{
    match bill.total(page) {
        Ok(totalled) => totalled.written(),
        Err(Refused { bill, refusal: _ }) => bill.tear(),
    }
}

// Writes the bill of the chosen places on the page, and says how many bytes it has.
pub(crate) fn write_bill<P: Book>(page: &mut [u8], sheet: &Sheet<P>) -> usize
    requires { length page.old ≡ PAGE }
    ensures text { take result page.new ≡ bill_text (lines_below (shown_at sheet.now) place_count) }
    ensures fits { result ≤ PAGE }
{
    let begun = begin(page, sheet);
    let lined = add_lines(begun, page, sheet);
    total(lined, page, sheet)
}
