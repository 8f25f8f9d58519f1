ghost use Rattle.std.specs.Prelude.{◌≡◌, ◌*◌, ◌≤◌};
ghost use Rattle.bill.specs.Bill.{most_lines, greatest_steel};

use crate::line::{line_of, total_of};
use crate::page::append;
use crate::refusal::Refusal;
use sheet::place::PLACES;
use sheet::reading::Reading;

/// A bill has no more lines than this: one for each place of a sheet.
pub const MOST_LINES: u8 = PLACES;

/// A bill that takes lines: the bytes written, the lines and their summed steel in mm³. It can't be
/// let go: it ends by `total` or by `tear`.
pub struct Begun {
    written: usize,
    lines: u8,
    steel: u64,
    ghost within_most_lines: { lines ≤ most_lines },
    ghost steel_of_its_lines: { steel ≤ lines * greatest_steel },
}

/// A begun bill that is handed back as it was, and why.
pub struct Refused {
    pub bill: Begun,
    pub refusal: Refusal,
}

/// A bill with its total: the bytes written. It takes no more lines, and only `total` makes one.
#[derive(Drop)]
pub struct Totalled {
    written: usize,
}

impl Begun {
    ghost use Rattle.bill.specs.Steps.{BegunAs, LineAs, TotalAs};
    ghost use Rattle.bill.specs.Whole.{BeginsBill, TakesLine, EndsBill};

    /// Begins a bill at the front of the page. Refused where the page is too short (11).
    #[tactic(auto, using(crate::proofs::Pages::begins))]
    pub fn begin(page: &mut [u8]) -> Result<Begun, Refusal>
        ensures head_on_the_page_or_refused { BegunAs page.old result page.new }
        ensures bill_of_no_line { BeginsBill result page.new }
    {
        let written = append(page, 0, b"CAGES\n")?;
        Ok(Begun {
            written,
            lines: 0,
            steel: 0,
        })
    }

    // The bill handed back.
    fn refused(self, refusal: Refusal) -> Refused
        ensures same_bill { result.bill ≡ self }
        ensures for_this_reason { result.refusal ≡ refusal }
    {
        Refused {
            bill: self,
            refusal,
        }
    }

    /// One line more, for a place that shows a chosen cage. Refused where it shows none (12), where
    /// the bill has `MOST_LINES` lines (13), and where the page is too short (11).
    #[tactic(auto, using(crate::proofs::Pages::takes_line))]
    pub fn line(self, page: &mut [u8], reading: &Reading) -> Result<Begun, Refused>
        ensures line_on_the_page_or_handed_back { LineAs self page.old
            reading.now result page.new }
        ensures bill_of_one_line_more { TakesLine self page.old reading.now result page.new }
    {
        let Some(choice) = reading.shown.choice() else {
            return Err(self.refused(Refusal::NotChosen));
        };
        if self.lines >= MOST_LINES {
            return Err(self.refused(Refusal::Full));
        }
        let line = line_of(reading.place, &choice);
        match append(page, self.written, line.as_str().as_bytes()) {
            Err(refusal) => Err(self.refused(refusal)),
            Ok(written) => {
                let Begun {
                    written: _,
                    lines,
                    steel,
                } = self;
                Ok(Begun {
                    written,
                    lines: lines + 1,
                    steel: steel + choice.steel as u64,
                })
            }
        }
    }

    /// The last line: how many cages, and their steel together. Refused where the page is too short
    /// (11).
    #[tactic(auto, using(crate::proofs::Pages::ends))]
    pub fn total(self, page: &mut [u8]) -> Result<Totalled, Refused>
        ensures total_on_the_page_or_handed_back { TotalAs self page.old result page.new }
        ensures whole_bill_of_its_lines { EndsBill self page.old result page.new }
    {
        let line = total_of(self.lines, self.steel);
        match append(page, self.written, line.as_str().as_bytes()) {
            Err(refusal) => Err(self.refused(refusal)),
            Ok(written) => {
                let Begun {
                    written: _,
                    lines: _,
                    steel: _,
                } = self;
                Ok(Totalled { written })
            }
        }
    }

    /// Ends a bill with no total, and says how many bytes it has written.
    pub fn tear(self) -> usize
        ensures bytes_written { result ≡ self.written }
    {
        let bytes = self.written;
        let Begun {
            written: _,
            lines: _,
            steel: _,
        } = self;
        bytes
    }

    /// How many bytes of the page the bill has written so far.
    pub fn written(&self) -> usize
        ensures bytes_written { result ≡ self.now.written }
    {
        let Begun { written, .. } = self;
        *written
    }
}

impl Totalled {
    /// How many bytes of the page are the bill.
    pub fn written(&self) -> usize
        ensures bytes_written { result ≡ self.now.written }
    {
        let Totalled { written } = self;
        *written
    }
}
