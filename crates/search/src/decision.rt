ghost use Rattle.std.specs.Prelude.{◌<◌, ◌↔◌, IsTrue};
ghost use Rattle.rebar.specs.Steel.{steel_bound};

use rebar::cage::Cage;

/// A cage with its steel in the beam it is for, in mm³.
#[derive(Clone, Copy)]
pub struct Choice {
    pub cage: Cage,
    pub steel: u32,
    ghost steel_under_the_bound: { steel < steel_bound },
}

/// What the search finds for a beam: the lightest cage, or where none passes the greatest number that refused one.
/// No `Result`, since that none passes is an answer to store and to show, and no error to hand on.
#[derive(Clone, Copy)]
pub enum Decision {
    Chosen(Choice),
    Impossible(u8), // the greatest number that refused one
}

impl Choice {
    ghost use Rattle.search.specs.Search.{Lighter};

    // Whether the cage has less steel than another, or as much and is the smaller.
    pub(crate) fn is_lighter(&self, other: &Choice) -> bool
        ensures { IsTrue result ↔ Lighter self.now.steel self.now.cage other.now }
    {
        (self.steel, self.cage) < (other.steel, other.cage)
    }
}

impl Decision {
    ghost use Rattle.search.specs.Search.{StandsAgainst};

    // Whether no cage of this steel or more can take its place.
    pub(crate) fn stands_against(&self, floor: u32) -> bool
        ensures { IsTrue result ↔ StandsAgainst floor self.now }
    {
        match self {
            Decision::Chosen(chosen) => chosen.steel < floor,
            Decision::Impossible(_) => false,
        }
    }
}
