ghost use Rattle.std.specs.Prelude.{◌≡◌, ◌≤◌};
ghost use Rattle.books.specs.Rules.{test};
ghost use Rattle.books.specs.Numbers.{vc_of, vm_of, vs_of};
ghost use Rattle.books.specs.General.{section_bears, ties_bear, least_ties, close_enough};

use crate::face::{Faces, yield_stress};
use rebar::beam::Beam;
use rebar::cage::Ties;

// A factored shear in tenths of a kg, and the strength reduction factor that goes with it, in hundredths.
#[derive(Clone, Copy)]
pub(crate) struct Shear {
    pub force: u64,
    pub factor: u64,
    ghost no_more_in_any_beam: { (force ≤ 1000000000) × (factor ≤ 75) },
}

// What a section bears in shear, in kg: its concrete vc, its ties vs, and vm at the most.
#[derive(Clone, Copy)]
pub(crate) struct Strengths {
    pub concrete: u64,
    pub ties: u64,
    pub most: u64,
    ghost no_more_in_any_beam: { (concrete ≤ 400000) × (ties ≤ 300000) × (most ≤ 400000) },
}

impl Strengths {
    ghost use Rattle.books.specs.Faces.{least_depth};

    // The strengths of the section with these faces and ties.
    pub(crate) fn of(faces: &Faces) -> Strengths
        ensures concrete_bears_vc { result.concrete ≡ vc_of faces.now.beam.now.section
            faces.now.beam.now.materials (least_depth faces.now) }
        ensures ties_bear_vs { result.ties ≡ vs_of faces.now.beam.now.materials faces.now.ties.now
            (least_depth faces.now) }
        ensures section_bears_vm { result.most ≡ vm_of faces.now.beam.now.section
            faces.now.beam.now.materials (least_depth faces.now) }
    {
        let Faces { beam, ties, .. } = faces;
        let r = beam.materials.root() as u64;
        let b = beam.section.width as u64;
        let y = yield_stress(beam);
        let z = faces.depth();
        Strengths {
            concrete: 53 * r * b * z / 100_000_000,
            ties: ties.area() as u64 * y * z / (5 * ties.spacing as u64),
            most: 265 * r * b * z / 100_000_000,
        }
    }

    // Whether the section bears the shear, were it to have any ties.
    pub(crate) fn section_bears(&self, shear: &Shear) -> bool
        ensures { result ≡ test (section_bears shear.now.factor shear.now.force self.now.most) }
    {
        10 * shear.force <= shear.factor * self.most
    }

    // Whether concrete and ties bear the shear.
    pub(crate) fn bear(&self, shear: &Shear) -> bool
        ensures { result ≡ test
            (ties_bear shear.now.factor shear.now.force self.now.concrete self.now.ties) }
    {
        10 * shear.force <= shear.factor * (self.concrete + self.ties)
    }

    // Whether the ties are the least, where the shear asks for any.
    pub(crate) fn has_least_ties(&self, beam: &Beam, ties: &Ties, shear: &Shear) -> bool
        ensures { result ≡ test
            (least_ties beam.now.section beam.now.materials shear.now.factor ties.now
            shear.now.force self.now.concrete) }
    {
        let b = beam.section.width as u64;
        20 * shear.force <= shear.factor * self.concrete
            || 7 * b * ties.spacing as u64 <= 400 * ties.area() as u64 * yield_stress(beam)
    }

    // Whether the ties stand close enough at an effective depth.
    pub(crate) fn is_close_enough(&self, ties: &Ties, depth: u64) -> bool
        ensures { result ≡ test (close_enough ties.now depth self.now.concrete self.now.ties) }
    {
        let spacing = ties.spacing as u64;
        20 * spacing <= depth
            && (self.ties < 2 * self.concrete || 40 * spacing <= depth && spacing <= 300)
    }
}
