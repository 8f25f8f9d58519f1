ghost use Rattle.std.specs.Prelude.{◌≡◌};
ghost use Rattle.sheet.specs.declared.refusal.Refusal.TheVariants.{Card};
ghost use Rattle.sheet.specs.Refusals.{refusal_number, byte_place};

use card::fault::Fault;

/// Why a call is refused. Each is reported by a number (`u8::from`).
#[derive(Clone, Copy, Debug, PartialEq, Eq)]
pub enum Refusal {
    /// 1: the number is above that of the last place.
    NoSuchPlace,
    /// 2: the place holds a beam.
    PlaceTaken,
    /// 3: the place holds no beam.
    PlaceEmpty,
    /// The number of the card's fault.
    Card(Fault),
    /// 9: the yard knows no such kind or mark.
    NoSuchMark,
    /// 10: no main mark or no tie mark is in.
    NothingInStock,
}

// The refusal of a call whose card has a fault.
impl From<Fault> for Refusal {
    ghost from_gives = { λ fault refusal. refusal ≡ Card fault };

    fn from(fault: Fault) -> Refusal {
        Self::Card(fault)
    }
}

// The number under which the refusal is reported.
impl From<Refusal> for u8 {
    ghost from_gives = { λ refusal number. number ≡ refusal_number refusal };

    fn from(refusal: Refusal) -> u8 {
        match refusal {
            Refusal::NoSuchPlace => 1,
            Refusal::PlaceTaken => 2,
            Refusal::PlaceEmpty => 3,
            Refusal::Card(fault) => fault.kind.into(),
            Refusal::NoSuchMark => 9,
            Refusal::NothingInStock => 10,
        }
    }
}

impl Refusal {
    /// The byte place of a card's fault; 0 for every other refusal.
    pub fn byte_place(self) -> usize
        ensures place_of_the_fault { result ≡ byte_place self }
    {
        match self {
            Refusal::Card(fault) => fault.place,
            Refusal::NoSuchPlace
            | Refusal::PlaceTaken
            | Refusal::PlaceEmpty
            | Refusal::NoSuchMark
            | Refusal::NothingInStock => 0,
        }
    }
}
