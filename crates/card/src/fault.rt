//! Why a card is refused, and where.
ghost use Rattle.std.specs.Prelude.{◌≡◌};
ghost use Rattle.card.specs.Faults.{fault, fault_number};

/// Why a card is refused.
#[derive(Clone, Copy, Debug, PartialEq, Eq)]
pub enum FaultKind {
    BytesMissing,
    UnknownBit,
    RequiredBitAbsent,
    BytesOver,
    OutOfRange,
}

/// The fault of a card: its kind, and the byte of the card where it lies.
#[derive(Clone, Copy, Debug, PartialEq, Eq)]
pub struct Fault {
    pub kind: FaultKind,
    pub place: usize,
}

impl FaultKind {
    // A fault of this kind at a byte of the card.
    pub(crate) fn at(self, place: usize) -> Fault
        ensures { result ≡ fault self place }
    {
        Fault { kind: self, place }
    }
}

/// The number under which a fault is reported.
impl From<FaultKind> for u8 {
    ghost from_gives = { λ kind number. number ≡ fault_number kind };

    fn from(kind: FaultKind) -> u8 {
        match kind {
            FaultKind::BytesMissing => 4,
            FaultKind::UnknownBit => 5,
            FaultKind::RequiredBitAbsent => 6,
            FaultKind::BytesOver => 7,
            FaultKind::OutOfRange => 8,
        }
    }
}
