ghost use Rattle.std.specs.Prelude.{◌≡◌, ◌↔◌, IsTrue};
ghost use Rattle.books.specs.Approved.{IsFor, Allows, no_row, none_allows, approved_answer, NoneIsFor, OneAllows, NoneOfThemAllows};

use crate::book::Book;
use loads::actions::Actions;
use rebar::beam::Beam;
use rebar::cage::Cage;

/// An approved cage: the section and the grades that it is approved for, and the actions that it bears there.
#[derive(Clone, Copy)]
pub struct ApprovedRow {
    /// The section, in mm.
    pub width: u16,
    pub height: u16,
    /// The grades of concrete and steel, in kg/cm².
    pub concrete: u16,
    pub steel: u16,
    pub cage: Cage,
    /// The moments of the bottom and the top, in tenths of a kg·m, and the shear, in tenths of a kg.
    pub bottom: u32,
    pub top: u32,
    pub shear: u32,
}

impl ApprovedRow {
    /// Whether the row has this beam's section and grades, and this cage.
    pub fn is_for(&self, beam: &Beam, cage: &Cage) -> bool
        ensures whether_it_has_them { IsTrue result ↔ IsFor self.now beam.now cage.now }
    {
        self.width == beam.section.width
            && self.height == beam.section.height
            && self.concrete == beam.materials.concrete
            && self.steel == beam.materials.steel
            && self.cage.is_same(cage)
    }

    /// Whether the row allows all three actions, each up to and including its number.
    pub fn allows(&self, actions: &Actions) -> bool
        ensures whether_it_allows_them { IsTrue result ↔ Allows self.now actions.now }
    {
        actions.bottom <= self.bottom && actions.top <= self.top && actions.shear <= self.shear
    }
}

/// The book of approved rows, which its caller holds: a cage passes where one row approves it for the beam. It refuses by 60
/// where no row is for the two, and by 61 where none of those that are allows all three actions.
#[derive(Clone, Copy)]
pub struct Approved<'a> {
    pub rows: &'a [ApprovedRow],
}

impl Book for Approved<'_> {
    ghost answer = { λ book beam cage. approved_answer book.rows.now beam cage };

    fn check(&self, beam: &Beam, cage: &Cage) -> u8
        ensures answers_its_meaning { result ≡ approved_answer self.now.rows.now beam.now cage.now }
        ensures unknown_exactly_when_no_row_is_for_them { (result ≡ no_row)
            ↔ NoneIsFor self.now.rows.now beam.now cage.now }
        ensures refused_exactly_when_none_of_those_allows_all { (result ≡ none_allows)
            ↔ NoneOfThemAllows self.now.rows.now beam.now cage.now }
        ensures passes_exactly_when_one_row_allows_all { (result ≡ 0)
            ↔ OneAllows self.now.rows.now beam.now cage.now }
    {
        let mut is_known = false;
        for row in self.rows {
            if row.is_for(beam, cage) {
                if row.allows(&beam.actions) {
                    return 0;
                }
                is_known = true;
            }
        }
        if is_known { 61 } else { 60 }
    }

    fn refusal_at_every_spacing(&self, _beam: &Beam, _cage: &Cage) -> Option<u8> {
        None
    }
}
