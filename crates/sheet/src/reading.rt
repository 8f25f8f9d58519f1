ghost use Rattle.std.specs.Prelude.{◌≡◌, ◌≤◌};
ghost use Rattle.sheet.specs.Size.{last_place};

use crate::entry::Entry;
use search::decision::{Choice, Decision};

/// What a place shows: the four cases that a caller tells apart, side by side.
#[derive(Clone, Copy)]
pub enum Shown {
    /// No beam lies there.
    Empty,
    /// A beam lies there, and is not decided.
    Open,
    /// The lightest cage that passes for the beam there, with its steel.
    Chosen(Choice),
    /// No cage from stock passes: the greatest number under which the pile refused one.
    Impossible(u8),
}

/// What is read of a place of the sheet.
#[derive(Clone, Copy)]
pub struct Reading {
    /// The number of the place, from 0 to `LAST_PLACE`.
    pub place: u8,
    pub shown: Shown,
    ghost on_the_sheet: { place ≤ last_place },
}

impl Shown {
    ghost use Rattle.sheet.specs.Places.{shown_of, choice_of};

    // What is shown of a place that holds this.
    pub(crate) fn of(held: Option<Entry>) -> Shown
        ensures { result ≡ shown_of held }
    {
        let Some(entry) = held else {
            return Shown::Empty;
        };
        match entry.decision {
            None => Shown::Open,
            Some(Decision::Chosen(choice)) => Shown::Chosen(choice),
            Some(Decision::Impossible(article)) => Shown::Impossible(article),
        }
    }

    /// The cage that is shown, with its steel; none where the place is empty, open or impossible.
    pub fn choice(self) -> Option<Choice>
        ensures the_cage_that_is_shown { result ≡ choice_of self }
    {
        match self {
            Shown::Chosen(choice) => Some(choice),
            Shown::Empty | Shown::Open | Shown::Impossible(_) => None,
        }
    }
}
