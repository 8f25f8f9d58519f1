//! Which fields stand on a card, and where each begins.
ghost use Rattle.std.specs.Prelude.{◌≡◌, ◌<◌, ◌≤◌, false, MatchOption};
ghost use Rattle.card.specs.Card.{map_fault, Shaped};
ghost use Rattle.card.specs.Faults.{Answers};
ghost use Rattle.card.specs.Map.{stands, unknown, required, offset, Begins};

use crate::fault::{Fault, FaultKind};
use crate::layout::{Field, Mapped, SIZES};
use loads::LoadCase;
use std::cmp::Ordering;

// The map of a card: a bit for each field, set where the field stands on the card.
#[derive(Clone, Copy)]
pub(crate) struct Map {
    pub(crate) bits: u16,
}

impl Map {
    // Whether a bit is set; bit 0 is the lowest.
    #[tactic(auto, unfolding(crate::specs::Map::stands))]
    fn stands(self, bit: usize) -> bool
        requires { bit < 13 }
        ensures { result ≡ stands self.bits bit }
    {
        (self.bits >> bit) % 2 == 1
    }

    // Whether a field stands on the card.
    fn has<F: Mapped>(self, field: F) -> bool
        ensures { result ≡ stands self.bits (F.bit field) }
    {
        self.stands(field.bit())
    }

    // Whether a bit is set that no field has.
    fn has_unknown(self) -> bool
        ensures { result ≡ unknown self.bits }
    {
        self.bits >= 1 << SIZES.len()
    }

    // Whether every required field stands.
    #[tactic(auto, unfolding(crate::specs::Map::required))]
    fn has_required(self) -> bool
        ensures { result ≡ required self.bits }
    {
        self.has(Field::Width)
            && self.has(Field::Height)
            && self.has(Field::Concrete)
            && self.has(Field::Span)
            && self.has(LoadCase::Dead)
    }

    // How many bytes the fields take that stand below a bit.
    #[tactic(auto, using(crate::proofs::Offsets::steps))]
    fn offset(self, bit: usize) -> usize
        requires { bit ≤ 13 }
        ensures bytes_below_the_bit { result ≡ offset self.bits bit }
        ensures at_most_24_for_each_bit { result ≤ 312 }
    {
        let mut at: usize = 0;
        for (k, bytes) in SIZES[..bit].iter().enumerate() {
            if self.stands(k) {
                at += *bytes;
            }
        }
        at
    }

    // Where a field begins, counted from the first byte after the map, if it stands on the card.
    #[tactic(auto, using(crate::proofs::Offsets::begins))]
    pub(crate) fn place<F: Mapped>(self, field: F) -> Option<usize>
        ensures { MatchOption result
            (stands self.bits (F.bit field) ≡ false)
            (Begins self.bits (F.bit field) (F.bytes field)) }
    {
        self.has(field).then(|| self.offset(field.bit()))
    }

    // Judges the map, and the number of bytes of a card with this map.
    #[tactic(auto, using(std::proofs::lemmas::Bool::Decides::nat_tests), unfolding(crate::specs::Card::map_fault))]
    pub(crate) fn judge(self, bytes: usize) -> Result<(), Fault>
        ensures { Answers (map_fault self.bits bytes) (λ _. Shaped self.bits bytes) result }
    {
        if self.has_unknown() {
            return Err(FaultKind::UnknownBit.at(0));
        }
        if !self.has_required() {
            return Err(FaultKind::RequiredBitAbsent.at(0));
        }
        let end = 2 + self.offset(SIZES.len());
        match bytes.cmp(&end) {
            Ordering::Less => Err(FaultKind::BytesMissing.at(bytes)),
            Ordering::Equal => Ok(()),
            Ordering::Greater => Err(FaultKind::BytesOver.at(end)),
        }
    }
}
