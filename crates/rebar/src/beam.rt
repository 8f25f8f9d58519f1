//! A beam with its actions, and the steel of bars, ties and cages in it.
ghost use Rattle.std.specs.Prelude.{◌≡◌, ◌<◌, ◌≤◌};
ghost use Rattle.loads.specs.Actions.{ActionsOf};

use crate::cage::{Bars, Cage, Ties};
use crate::materials::Materials;
use crate::member::Member;
use crate::section::Section;
use loads::{Actions, Loads};

/// A beam. It carries the factored actions of its loads, so that they are computed once and not at
/// every question.
#[derive(Clone, Copy)]
pub struct Beam {
    pub section: Section,
    pub materials: Materials,
    pub member: Member,
    pub loads: Loads,
    pub actions: Actions,
    ghost factored: { ActionsOf loads actions },
}

impl Beam {
    ghost use Rattle.rebar.specs.Steel.{tie_length, tie_count, bars_steel, ties_steel, steel, steel_bound};

    /// A beam of these parts, with the actions of its loads.
    pub fn new(section: Section, materials: Materials, member: Member, loads: Loads) -> Beam
        ensures of_these_parts { (result.section ≡ section) × (result.materials ≡ materials)
            × (result.member ≡ member) × (result.loads ≡ loads) }
    {
        let actions = Actions::of(&loads);
        Beam {
            section,
            materials,
            member,
            loads,
            actions,
        }
    }

    // The length of one tie with its hooks, in mm.
    #[tactic(auto, unfolding(crate::specs::Steel::tie_length))]
    fn length_of_tie(&self, ties: &Ties) -> u32
        ensures length_of_the_tie { result ≡ tie_length self.now ties.now }
        ensures at_most_the_longest_tie { result ≤ 3432 }
    {
        let width = self.section.width as u32;
        let height = self.section.height as u32;
        let cover = self.section.cover as u32;
        2 * (width - 2 * cover) + 2 * (height - 2 * cover) + 2 * ties.hook_length()
    }

    // How many ties stand in the span.
    #[tactic(auto, using(std::proofs::lemmas::Nat::div_below, crate::proofs::Rounding::rounded_up), unfolding(crate::specs::Steel::tie_count))]
    fn number_of_ties(&self, ties: &Ties) -> u32
        ensures number_in_the_span { result ≡ tie_count self.now ties.now }
        ensures at_most_the_most_ties { result ≤ 239 }
    {
        let spacing = ties.spacing as u32;
        (self.member.span as u32 - 100).div_ceil(spacing) + 1
    }

    /// The steel of the bars of one face, in mm³.
    #[tactic(auto, using(crate::proofs::Bounds::bars), unfolding(crate::specs::Steel::bars_steel))]
    pub fn bars_steel(&self, bars: &Bars) -> u32
        ensures steel_of_the_bars { result ≡ bars_steel self.now bars.now }
        ensures at_most_the_most_steel { result ≤ 144864000 }
    {
        self.member.span as u32 * bars.area()
    }

    /// The steel of the ties, in mm³.
    #[tactic(auto, using(crate::proofs::Bounds::ties), unfolding(crate::specs::Steel::ties_steel))]
    pub fn ties_steel(&self, ties: &Ties) -> u32
        ensures steel_of_the_ties { result ≡ ties_steel self.now ties.now }
        ensures at_most_the_most_steel { result ≤ 163229352 }
    {
        self.number_of_ties(ties) * self.length_of_tie(ties) * ties.area()
    }

    /// The steel of a whole cage, in mm³.
    pub fn steel(&self, cage: &Cage) -> u32
        ensures steel_of_the_cage { result ≡ steel self.now cage.now }
        ensures below_the_bound_of_every_cage { result < steel_bound }
    {
        self.bars_steel(&cage.bottom) + self.bars_steel(&cage.top) + self.ties_steel(&cage.ties)
    }
}
