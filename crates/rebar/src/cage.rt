//! Cages: the bars of a face, ties, and a whole cage, with their sizes and the order of cages.
ghost use Rattle.std.specs.Prelude.{◌≡◌, ◌≢◌, ◌≤◌, ◌%◌, ◌↔◌, IsTrue, IsSome, IsSomeAnd, MatchOption, nat_eq};
ghost use Rattle.std.specs.Ordering.{MatchOrdering, nat_cmp, on, as_partial_cmp};
ghost use Rattle.std.specs.Cmp.Lexicographic.{pointwise, slice_cmp};
ghost use Rattle.rebar.specs.Ranges.{Within, main_marks, tie_marks, bar_numbers, spacings, spacing_step};

use crate::marks::size_of;
use std::cmp::Ordering;

/// The bars of one face: their mark, from 3 to 11, and how many, from 2 to 12.
#[derive(Clone, Copy, Debug, PartialEq, Eq, PartialOrd, Ord)]
pub struct Bars {
    pub mark: u8,
    pub number: u8,
    ghost marked: { Within main_marks mark },
    ghost counted: { Within bar_numbers number },
}

impl Bars {
    ghost use Rattle.rebar.specs.declared.cage.Bars.{Bars};
    ghost use Rattle.rebar.specs.Marks.{bar_diameter, face_area};

    /// The bars of this mark and number, where there are such.
    pub fn new(mark: u8, number: u8) -> Option<Bars>
        ensures bars_exactly_where_there_are { MatchOption result
            ((b : Bars) → b.mark ≡ mark → b.number ≢ number)
            (λ b. (b.mark ≡ mark) × (b.number ≡ number)) }
        ensures exactly_in_range { IsSome result
            ↔ (Within main_marks mark × Within bar_numbers number) }
    {
        match (mark, number) {
            (3..=11, 2..=12) => Some(Bars { mark, number }),
            _ => None,
        }
    }

    /// The diameter of one of the bars, in tenths of a mm (ASTM A615).
    pub fn diameter(&self) -> u32
        ensures diameter_of_the_mark { result ≡ bar_diameter self.now.mark }
        ensures at_most_the_greatest_diameter { result ≤ 358 }
    {
        let bar = size_of(self.mark);
        bar.diameter
    }

    /// The area of all the bars, in mm² (ASTM A615).
    #[tactic(auto, using(crate::proofs::Bounds::face), unfolding(crate::specs::Marks::face_area))]
    pub fn area(&self) -> u32
        ensures area_of_the_face { result ≡ face_area self.now }
        ensures at_most_the_greatest_area { result ≤ 12072 }
    {
        self.number as u32 * size_of(self.mark).area
    }
}

/// Closed two-leg stirrups: their mark, from 3 to 5, and their spacing in mm, from 50 to 600 by 25.
#[derive(Clone, Copy, Debug, PartialEq, Eq, PartialOrd, Ord)]
pub struct Ties {
    pub mark: u8,
    pub spacing: u16,
    ghost marked: { Within tie_marks mark },
    ghost spaced: { Within spacings spacing × (spacing % spacing_step ≡ 0) },
}

// Not one trait with the bars of a face: each method has a bound of its own.
impl Ties {
    ghost use Rattle.rebar.specs.declared.cage.Ties.{Ties};
    ghost use Rattle.rebar.specs.Marks.{bar_diameter, bar_area};
    ghost use Rattle.rebar.specs.Steel.{hook};

    /// The ties of this mark and spacing, where there are such.
    pub fn new(mark: u8, spacing: u16) -> Option<Ties>
        ensures ties_exactly_where_there_are { MatchOption result
            ((t : Ties) → t.mark ≡ mark → t.spacing ≢ spacing)
            (λ t. (t.mark ≡ mark) × (t.spacing ≡ spacing)) }
        ensures exactly_in_range { IsSome result
            ↔ (Within tie_marks mark × Within spacings spacing × (spacing % spacing_step ≡ 0)) }
    {
        match (mark, spacing) {
            (3..=5, 50..=600) if spacing % 25 == 0 => Some(Ties { mark, spacing }),
            _ => None,
        }
    }

    /// The diameter of a tie's bar, in tenths of a mm (ASTM A615).
    pub fn diameter(&self) -> u32
        ensures diameter_of_the_mark { result ≡ bar_diameter self.now.mark }
        ensures at_most_the_greatest_diameter { result ≤ 159 }
    {
        let tie = size_of(self.mark);
        tie.diameter
    }

    /// The area of one leg of a tie, in mm² (ASTM A615).
    pub fn area(&self) -> u32
        ensures area_of_the_mark { result ≡ bar_area self.now.mark }
        ensures at_most_the_greatest_area { result ≤ 199 }
    {
        let leg = size_of(self.mark);
        leg.area
    }

    // The length of a hook at an end of a tie, in mm.
    #[tactic(auto, unfolding(crate::specs::Steel::hook))]
    pub(crate) fn hook_length(&self) -> u32
        ensures length_of_the_hook { result ≡ hook self.now }
        ensures at_most_the_longest_hook { result ≤ 96 }
    {
        let hook: u32 = 75;
        hook.max((6 * self.diameter()).div_ceil(10))
    }
}

/// A cage: bottom and top bars over the whole clear span, and ties at one spacing.
#[derive(Clone, Copy, Debug, PartialEq, Eq, PartialOrd, Ord)]
pub struct Cage {
    pub bottom: Bars,
    pub top: Bars,
    pub ties: Ties,
}

impl Cage {
    ghost use Rattle.rebar.specs.declared.cage.Cage.{Cage};
    ghost use Rattle.rebar.specs.Compared.{derived_eq, derived_partial_cmp, derived_cmp};
    ghost use Rattle.rebar.specs.Order.{numbers, Smaller};

    /// The six numbers, in their order: bottom mark and number, top mark and number, tie mark and
    /// spacing.
    #[tactic(auto, using(crate::proofs::Same::same_numbers))]
    pub fn numbers(&self) -> [u16; 6]
        ensures the_six_numbers { result ≡ numbers self.now }
        ensures of_no_other_cage { (c : Cage) → numbers c ≡ result → c ≡ self.now }
    {
        [
            self.bottom.mark as u16,
            self.bottom.number as u16,
            self.top.mark as u16,
            self.top.number as u16,
            self.ties.mark as u16,
            self.ties.spacing,
        ]
    }

    /// Whether it is the same cage as another: by `==`, which compares the six numbers.
    pub fn is_same(&self, other: &Cage) -> bool
        ensures by_the_six_numbers { result ≡ on numbers (pointwise nat_eq) self.now other.now }
        ensures of_every_two { (c d : Cage)
            → derived_eq c d ≡ on numbers (pointwise nat_eq) c d }
        ensures the_same_cage { IsTrue result ↔ (self.now ≡ other.now) }
    {
        self == other
    }

    /// The same as `order`, by `partial_cmp`.
    pub fn partial_order(&self, other: &Cage) -> Option<Ordering>
        ensures by_the_six_numbers { result
            ≡ as_partial_cmp (on numbers (slice_cmp nat_cmp)) self.now other.now }
        ensures of_every_two { (c d : Cage)
            → derived_partial_cmp c d ≡ as_partial_cmp (on numbers (slice_cmp nat_cmp)) c d }
        ensures smaller_cage { IsSomeAnd result (λ o. MatchOrdering o
            (Smaller self.now other.now)
            (self.now ≡ other.now)
            (Smaller other.now self.now)) }
    {
        self.partial_cmp(other)
    }

    /// Whether it is smaller than another, by `<`.
    pub fn is_smaller(&self, other: &Cage) -> bool
        ensures smaller_cage { IsTrue result ↔ Smaller self.now other.now }
    {
        self < other
    }

    /// Of two cages the smaller is the one whose first differing number is smaller, by `cmp`.
    pub fn order(&self, other: &Cage) -> Ordering
        ensures by_the_six_numbers { result ≡ on numbers (slice_cmp nat_cmp) self.now other.now }
        ensures of_every_two { (c d : Cage)
            → derived_cmp c d ≡ on numbers (slice_cmp nat_cmp) c d }
        ensures smaller_cage { MatchOrdering result
            (Smaller self.now other.now)
            (self.now ≡ other.now)
            (Smaller other.now self.now) }
    {
        self.cmp(other)
    }
}
