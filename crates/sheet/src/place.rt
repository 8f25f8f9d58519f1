ghost use Rattle.std.specs.Prelude.{◌≡◌, ◌<◌, ◌≤◌, MatchResult};
ghost use Rattle.sheet.specs.Size.{last_place};
ghost use Rattle.sheet.specs.declared.refusal.Refusal.TheVariants.{NoSuchPlace};

use crate::refusal::Refusal;

/// How many places a sheet has, numbered from 0.
pub const PLACES: u8 = 64;

/// The number of the last place.
pub const LAST_PLACE: u8 = PLACES - 1;

// A place of the sheet, by its number.
#[derive(Clone, Copy)]
pub(crate) struct Place {
    pub(crate) number: u8,
    ghost on_the_sheet: { number ≤ last_place },
}

// The place with a number; `NoSuchPlace` where there is none.
impl TryFrom<u8> for Place {
    type Error = Refusal;

    ghost try_from_gives = { λ n r. MatchResult r
        (λ place. place.number ≡ n) (λ e. (last_place < n) × (e ≡ NoSuchPlace)) };

    fn try_from(number: u8) -> Result<Place, Refusal> {
        if number <= LAST_PLACE {
            Ok(Place { number })
        } else {
            Err(Refusal::NoSuchPlace)
        }
    }
}
