//! The fields of a card: bit, default, allowed values.
ghost use Rattle.std.specs.Prelude.{◌≡◌, ℕ, ◌<◌, ◌⊎◌};
ghost use Rattle.card.specs.Layout.{field_count, layout, load_bit, size, field_size, case_size};

use loads::LoadCase;
use rebar::materials::{is_concrete, is_steel};
use rebar::member::is_shear_factor;

// How many bytes each field takes, by its bit.
pub(crate) const SIZES: [usize; 13] = [2, 2, 1, 2, 2, 1, 1, 2, 1, 24, 24, 24, 24];

// A field, of one number or of a load case: what a bit of the map stands for.
pub(crate) trait Mapped: Copy {
    ghost bit: { Self → ℕ };

    ghost bytes: { Self → ℕ };

    // The field's bit in the map.
    fn bit(self) -> usize
        ensures bit_of_the_field { result ≡ bit self }
        ensures one_of_the_known { result < field_count };

    // The table of sizes says how many bytes the field takes.
    ghost sized: { (field : Self) → size (bit field) ≡ bytes field };
}

// The fields of one number, in the order of their bits.
#[derive(Clone, Copy)]
pub(crate) enum Field {
    Width,
    Height,
    Cover,
    Concrete,
    Steel,
    Aggregate,
    Frame,
    Span,
    ShearFactor,
}

impl Mapped for Field {
    ghost bit = { λ field. (layout field).bit };

    ghost bytes = { λ field. (layout field).bytes };

    ghost sized = { field_size };

    fn bit(self) -> usize {
        self as usize
    }
}

// The fields of a load case, six numbers each, follow those of one number.
impl Mapped for LoadCase {
    ghost bit = { load_bit };

    ghost bytes = { λ _. 24 };

    ghost sized = { case_size };

    fn bit(self) -> usize {
        9 + self as usize
    }
}

impl Field {
    // How many bytes the field takes.
    pub(crate) fn bytes(self) -> usize
        ensures bytes_of_the_row { result ≡ (layout self).bytes }
        ensures one_or_two { (result ≡ 1) ⊎ (result ≡ 2) }
    {
        SIZES[self.bit()]
    }

    // What it means that the field is absent. The fields of the last line are required, and never
    // absent.
    pub(crate) fn default(self) -> u16
        ensures { result ≡ (layout self).default }
    {
        match self {
            Field::Cover => 40,
            Field::Steel => 4200,
            Field::Aggregate => 20,
            Field::Frame => 0,
            Field::ShearFactor => 75,
            Field::Width | Field::Height | Field::Concrete | Field::Span => 0,
        }
    }

    // Whether the field may hold a number, where covers below the least are refused.
    pub(crate) fn allows(self, value: u16, least_cover: u16) -> bool
        ensures { result ≡ (layout self).allowed least_cover value }
    {
        match self {
            Field::Width => (250..=800).contains(&value),
            Field::Height => (250..=900).contains(&value),
            Field::Cover => (least_cover..=75).contains(&value),
            Field::Concrete => is_concrete(value),
            Field::Steel => is_steel(value),
            Field::Aggregate => (10..=40).contains(&value),
            Field::Frame => value <= 1,
            Field::Span => (1000..=12000).contains(&value),
            Field::ShearFactor => is_shear_factor(value),
        }
    }
}
