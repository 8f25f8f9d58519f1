ghost use Rattle.std.specs.Prelude.{◌≡◌};
ghost use Rattle.bill.specs.Refusals.{refusal_number};

/// Why a step is refused. Each is reported by a number (`u8::from`).
#[derive(Clone, Copy, Debug, PartialEq, Eq)]
pub enum Refusal {
    /// 11: there is no room on the page for the new bytes.
    PageShort,
    /// 12: the reading is not of a chosen place.
    NotChosen,
    /// 13: the bill has `MOST_LINES` lines.
    Full,
}

// The number under which the refusal is reported.
impl From<Refusal> for u8 {
    ghost from_gives = { λ refusal number. number ≡ refusal_number refusal };

    fn from(refusal: Refusal) -> u8 {
        match refusal {
            Refusal::PageShort => 11,
            Refusal::NotChosen => 12,
            Refusal::Full => 13,
        }
    }
}
