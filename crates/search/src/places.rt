ghost use Rattle.std.specs.Prelude.{◌≡◌, ◌<◌, ◌≤◌};
ghost use Rattle.std.specs.List.{AllWithin};
ghost use Rattle.rebar.specs.Steel.{bars_steel, ties_steel};
ghost use Rattle.search.specs.declared.places.TheConstants.{MOST};
ghost use Rattle.search.specs.Search.{bars_place, ties_place, IsByPlace};

use rebar::beam::Beam;
use rebar::cage::{Bars, Ties};
use std::array;

// How many bars of a face there are: nine marks, each in eleven numbers.
pub(crate) const BARS: usize = 99;

// How many marks of ties there are.
pub(crate) const TIE_MARKS: usize = 3;

// At how many spacings each.
pub(crate) const SPACINGS: usize = 23;

// How many ties that makes.
pub(crate) const TIES: usize = TIE_MARKS * SPACINGS;

// No bars of a face and no ties have more steel in any beam, in mm³.
pub(crate) const MOST: u32 = 163_229_352;

// The bars of a face with their steel in a beam, in mm³.
#[derive(Clone, Copy)]
pub(crate) struct WeighedBars {
    pub(crate) bars: Bars,
    pub(crate) steel: u32,
    ghost no_more_in_any_beam: { steel ≤ MOST },
}

// Ties with their steel in a beam, in mm³.
#[derive(Clone, Copy)]
pub(crate) struct WeighedTies {
    pub(crate) ties: Ties,
    pub(crate) steel: u32,
    ghost no_more_in_any_beam: { steel ≤ MOST },
}

// The bars of a face at a place, by mark and then by number, with their steel in a beam.
fn bars_at(beam: &Beam, k: usize) -> WeighedBars
    requires { k < BARS }
    ensures at_place { bars_place result.bars ≡ k }
    ensures weighed { result.steel ≡ bars_steel beam.now result.bars }
{
    let bars = Bars {
        mark: 3 + (k / 11) as u8,
        number: 2 + (k % 11) as u8,
    };
    let steel = beam.bars_steel(&bars);
    WeighedBars { bars, steel }
}

// The ties at a place, by mark and then from the widest spacing down, with their steel in a beam.
fn ties_at(beam: &Beam, k: usize) -> WeighedTies
    requires { k < TIES }
    ensures at_place { ties_place result.ties ≡ k }
    ensures weighed { result.steel ≡ ties_steel beam.now result.ties }
{
    let ties = Ties {
        mark: 3 + (k / SPACINGS) as u8,
        spacing: 600 - 25 * (k % SPACINGS) as u16,
    };
    let steel = beam.ties_steel(&ties);
    WeighedTies { ties, steel }
}

// All bars of a face with their steel in a beam, in the order of their places.
pub(crate) fn all_bars(beam: &Beam) -> [WeighedBars; BARS]
    ensures by_place { IsByPlace (λ b. bars_place b.bars) result BARS }
    ensures weighed { AllWithin (λ b. b.steel ≡ bars_steel beam.now b.bars) result 0 BARS }
{
    array::from_fn(|k| bars_at(beam, k))
}

// All ties with their steel in a beam, in the order of their places.
pub(crate) fn all_ties(beam: &Beam) -> [WeighedTies; TIES]
    ensures by_place { IsByPlace (λ t. ties_place t.ties) result TIES }
    ensures weighed { AllWithin (λ t. t.steel ≡ ties_steel beam.now t.ties) result 0 TIES }
{
    array::from_fn(|k| ties_at(beam, k))
}
