ghost use Rattle.std.specs.Prelude.{◌≡◌, ◌*◌, ◌≤◌};
ghost use Rattle.books.specs.Rules.{test};
ghost use Rattle.books.specs.General.{ductile, bends, least_steel, least_steel_under};

use crate::face::Face;
use rebar::beam::Beam;

// A strip of concrete over the width of the section: f × b.
pub(crate) fn strip_of(beam: &Beam) -> u64
    ensures strength_by_width { result ≡ beam.now.materials.concrete * beam.now.section.width }
    ensures in_range_of_every_beam { (45000 ≤ result) × (result ≤ 336000) }
{
    beam.materials.concrete as u64 * beam.section.width as u64
}

impl Face<'_> {
    // The stress block, were it as deep as the steel: f × b × d.
    pub(crate) fn full_block(&self) -> u64
        ensures strength_by_width_and_depth { result ≡ self.now.beam.now.materials.concrete
            * self.now.beam.now.section.width * self.now.depth }
        ensures no_more_in_any_beam { result ≤ 2956800000 }
    {
        strip_of(self.beam) * self.depth
    }

    // Whether the steel yields well before the concrete crushes: net strain 0.005 at d.
    #[tactic(auto, using(crate::proofs::Products::spread))]
    pub(crate) fn is_ductile(&self) -> bool
        ensures { result ≡ test
            (ductile self.now.beam.now.section self.now.beam.now.materials self.now.force
            self.now.depth) }
    {
        let block = self.beam.materials.block_factor() as u64;
        16_000_000 * self.force <= 51 * block * self.full_block()
    }

    // Whether the face bears a moment in bending.
    pub(crate) fn bears_moment(&self, moment: u32) -> bool
        requires { moment ≤ 3800000 }
        ensures { result ≡ test
            (bends self.now.beam.now.section self.now.beam.now.materials moment self.now.force
            self.now.depth) }
    {
        let m = moment as u64;
        let q = self.force;
        170_000 * m * strip_of(self.beam) + 90_000 * q * q <= 153 * q * self.full_block()
    }

    // Whether the face has the least steel.
    pub(crate) fn has_least_steel(&self) -> bool
        ensures { result ≡ test
            (least_steel self.now.beam.now.section self.now.beam.now.materials self.now.area
            self.now.depth) }
    {
        let b = self.beam.section.width as u64;
        self.beam.materials.least_ratio() as u64 * b * self.depth <= 100_000 * self.area
    }

    // Whether the face has the least steel, where a moment pulls at it.
    pub(crate) fn has_least_steel_under(&self, moment: u32) -> bool
        ensures { result ≡ test
            (least_steel_under self.now.beam.now.section self.now.beam.now.materials moment
            self.now.area self.now.depth) }
    {
        moment == 0 || self.has_least_steel()
    }
}
