//! The card as it comes in.
ghost use Rattle.rebar.specs.Ranges.{Within};
ghost use Rattle.card.specs.Card.{CardByCover, CardAs, OfNoOther};
ghost use Rattle.card.specs.Layout.{least_covers};
ghost use Rattle.card.specs.Order.{Judges};
ghost use Rattle.card.specs.WellFormed.{TakenExactly};

use crate::body::Body;
use crate::fault::Fault;
use rebar::Beam;

// The least cover, in mm.
const LEAST_COVER: u16 = 20;

// The beam of a card, or the card's first fault, where covers below the least are refused.
fn read(card: &[u8], least_cover: u16) -> Result<Beam, Fault>
    requires { Within least_covers least_cover }
    ensures { CardByCover least_cover card.now result }
{
    let body = Body::of(card, least_cover)?;
    let beam = body.beam()?;
    Ok(beam)
}

/// The beam of a card, or the card's first fault.
#[tactic(auto, using(crate::proofs::First::judges, crate::proofs::One::only_beam, crate::proofs::WellFormed::taken_exactly), unfolding(crate::specs::Card::card_fault))]
pub fn read_card(card: &[u8]) -> Result<Beam, Fault>
    ensures beam_or_fault { CardAs card.now result }
    ensures beam_exactly_of_well_formed_cards { TakenExactly card.now result }
    ensures of_no_other_beam { OfNoOther card.now result }
    ensures first_bad_number { Judges card.now result }
{
    let beam = read(card, LEAST_COVER)?;
    Ok(beam)
}
