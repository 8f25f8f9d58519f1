ghost use Rattle.std.specs.Prelude.{◌≡◌, []};
ghost use Rattle.pages.specs.Steps.{taken, handed_back, AddsHead, AddsLine, AddsTotal, written_of, Stands, Keeps, KeepsAndAdds};

use bill::bill::{Begun, Refused, Totalled};
use bill::refusal::Refusal;
use sheet::reading::Reading;

// A bill at any of its steps; none where its beginning was refused.
pub(crate) enum Bill {
    None,
    Begun(Begun),
    Totalled(Totalled),
}

// The bill after a step, and why the step was refused, if it was.
pub(crate) struct Stepped {
    pub(crate) bill: Bill,
    pub(crate) refusal: Option<Refusal>,
}

impl Stepped {
    // The bill that the step left.
    pub(crate) fn left(self) -> Bill
        ensures { result ≡ self.bill }
    {
        let Stepped { bill, refusal: _ } = self;
        bill
    }
}

// A step that was taken.
fn taken(bill: Bill) -> Stepped
    ensures { result ≡ taken bill }
{
    Stepped {
        bill,
        refusal: None,
    }
}

// A step whose bill is handed back.
fn handed_back(refused: Refused) -> Stepped
    ensures { result ≡ handed_back refused }
{
    let Refused { bill, refusal } = refused;
    Stepped {
        bill: Bill::Begun(bill),
        refusal: Some(refusal),
    }
}

// A bill begun on the page.
#[tactic(auto, using(crate::proofs::Steps::head_stands))]
pub(crate) fn begun(page: &mut [u8]) -> Stepped
    ensures begun_or_refused { AddsHead page.old result page.new }
    ensures bill_of_no_line { Stands [] page.old result.bill page.new }
{
    match Begun::begin(page) {
        Ok(bill) => taken(Bill::Begun(bill)),
        Err(refusal) => Stepped {
            bill: Bill::None,
            refusal: Some(refusal),
        },
    }
}

// A line more, where the bill still takes lines.
pub(crate) fn lined(bill: Bill, page: &mut [u8], reading: &Reading) -> Stepped
    ensures line_added_or_refused { AddsLine bill page.old reading.now result page.new }
    ensures lines_kept_and_one_more { KeepsAndAdds bill page.old reading.now result page.new }
{
    match bill {
        Bill::Begun(begun) => match begun.line(page, reading) {
            Ok(longer) => taken(Bill::Begun(longer)),
            Err(refused) => handed_back(refused),
        },
        Bill::Totalled(ended) => taken(Bill::Totalled(ended)),
        Bill::None => taken(Bill::None),
    }
}

// The total, where the bill has none yet.
pub(crate) fn totalled(bill: Bill, page: &mut [u8]) -> Stepped
    ensures total_added_or_refused { AddsTotal bill page.old result page.new }
    ensures lines_kept { Keeps bill page.old [] result.bill page.new }
{
    match bill {
        Bill::Begun(begun) => match begun.total(page) {
            Ok(ended) => taken(Bill::Totalled(ended)),
            Err(refused) => handed_back(refused),
        },
        Bill::Totalled(ended) => taken(Bill::Totalled(ended)),
        Bill::None => taken(Bill::None),
    }
}

impl Bill {
    // How many bytes of the page are the bill.
    pub(crate) fn written(&self) -> usize
        ensures { result ≡ written_of self.now }
    {
        match self {
            Bill::None => 0,
            Bill::Begun(begun) => begun.written(),
            Bill::Totalled(ended) => ended.written(),
        }
    }

    // Ends the bill, and says how many bytes it has.
    pub(crate) fn end(self) -> usize
        ensures { result ≡ written_of self }
    {
        match self {
            Bill::None => 0,
            Bill::Begun(begun) => begun.tear(),
            Bill::Totalled(ended) => ended.written(),
        }
    }
}
