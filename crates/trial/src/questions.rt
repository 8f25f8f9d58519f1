use books::approved::ApprovedRow;
use rebar::cage::{Bars, Cage, Ties};

// A card, and a cage for its beam.
#[derive(Clone, Copy)]
pub(crate) struct Pair<'a> {
    pub(crate) card: &'a [u8],
    pub(crate) cage: Cage,
}

// The three numbers of a yard layer.
#[derive(Clone, Copy)]
pub(crate) struct Limits {
    pub(crate) most_bars: u32,
    pub(crate) least_spacing: u32,
    pub(crate) one_mark: u32,
}

// A question: of the general book and the frame layer, of the approved book and the yard layer, or a sheet on these two
// with its orders. An approved row joins those before it.
#[derive(Clone, Copy)]
pub(crate) enum Question<'a> {
    Formulas(Pair<'a>),
    Row(ApprovedRow),
    Yard(Limits, Pair<'a>),
    Sheet(Limits, &'a [u8]),
}

// An order to a sheet.
#[derive(Clone, Copy)]
pub(crate) enum Order<'a> {
    Stock { kind: u8, mark: u8, is_in: bool },
    Enter { place: u8, card: &'a [u8] },
    Design { place: u8 },
}

// What is left of a stream. All numbers have the high byte first.
#[derive(Drop)]
pub(crate) struct Reader<'a> {
    pub(crate) rest: &'a [u8],
}

impl<'a> Reader<'a> {
    fn bytes(&mut self, count: usize) -> Option<&'a [u8]> {
        let (front, rest) = self.rest.split_at_checked(count)?;
        self.rest = rest;
        Some(front)
    }

    fn byte(&mut self) -> Option<u8> {
        let (first, rest) = self.rest.split_first()?;
        self.rest = rest;
        Some(*first)
    }

    fn short(&mut self) -> Option<u16> {
        Some(u16::from_be_bytes([self.byte()?, self.byte()?]))
    }

    fn long(&mut self) -> Option<u32> {
        Some(u32::from_be_bytes([self.byte()?, self.byte()?, self.byte()?, self.byte()?]))
    }

    // The card after its length.
    fn card(&mut self) -> Option<&'a [u8]> {
        let count = self.byte()?;
        self.bytes(count as usize)
    }

    fn bars(&mut self) -> Option<Bars> {
        let mark = self.byte()?;
        let number = self.byte()?;
        Bars::new(mark, number)
    }

    fn cage(&mut self) -> Option<Cage> {
        let bottom = self.bars()?;
        let top = self.bars()?;
        let mark = self.byte()?;
        let ties = Ties::new(mark, self.short()?)?;
        Some(Cage { bottom, top, ties })
    }

    fn pair(&mut self) -> Option<Pair<'a>> {
        let card = self.card()?;
        let cage = self.cage()?;
        Some(Pair { card, cage })
    }

    fn limits(&mut self) -> Option<Limits> {
        Some(Limits {
            most_bars: self.long()?,
            least_spacing: self.long()?,
            one_mark: self.long()?,
        })
    }

    fn row(&mut self) -> Option<ApprovedRow> {
        Some(ApprovedRow {
            width: self.short()?,
            height: self.short()?,
            concrete: self.short()?,
            steel: self.short()?,
            cage: self.cage()?,
            bottom: self.long()?,
            top: self.long()?,
            shear: self.long()?,
        })
    }

    // The next question, or none at the end or where there is none.
    pub(crate) fn question(&mut self) -> Option<Question<'a>> {
        match self.byte()? {
            b'Q' => Some(Question::Formulas(self.pair()?)),
            b'A' => Some(Question::Row(self.row()?)),
            b'Y' => {
                let limits = self.limits()?;
                Some(Question::Yard(limits, self.pair()?))
            }
            b'O' => {
                let limits = self.limits()?;
                let count = self.short()?;
                Some(Question::Sheet(limits, self.bytes(count as usize)?))
            }
            _ => None,
        }
    }

    // The next order, or none at the end or where there is none.
    pub(crate) fn order(&mut self) -> Option<Order<'a>> {
        match self.byte()? {
            b'S' => {
                let kind = self.byte()?;
                let mark = self.byte()?;
                let is_in = self.byte()? != 0;
                Some(Order::Stock { kind, mark, is_in })
            }
            b'E' => {
                let place = self.byte()?;
                let card = self.card()?;
                Some(Order::Enter { place, card })
            }
            b'D' => {
                let place = self.byte()?;
                Some(Order::Design { place })
            }
            _ => None,
        }
    }
}
