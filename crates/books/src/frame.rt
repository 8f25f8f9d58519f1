ghost use Rattle.std.specs.Prelude.{◌≡◌, MatchOption, ◌≢◌, ◌≤◌};
ghost use Rattle.books.specs.Rules.{test, over, first_broken, PassesExactly, RefusesExactly, answer_of};
ghost use Rattle.books.specs.Answers.{AtEverySpacing};
ghost use Rattle.books.specs.Faces.{least_depth};
ghost use Rattle.books.specs.Frame.{probable_moment, shear_of_moments, most_steel, half_below, close_in_frame, relied_on, in_frame_shear, frame, frame_articles_for, frame_answer};

use crate::article::{Broken, answer, ask};
use crate::book::Book;
use crate::face::{Face, Faces};
use crate::flexure::strip_of;
use crate::shear::{Shear, Strengths};
use rebar::beam::Beam;
use rebar::cage::{Cage, Ties};

/// A layer over any book: articles 21 to 28, for beams of a frame that resists earthquakes. Behind them stand R-033, Articles 106
/// and 126 for the steel, 138 and 140 for the ties, and 128 to 132 for the capacity shear (docs/RULES.md).
#[derive(Clone, Copy)]
pub struct Frame<B> {
    pub below: B,
}

impl Face<'_> {
    // The probable moment of the face, in kg·mm.
    #[tactic(auto, using(rebar::proofs::Rounding::rounded_up, crate::proofs::Products::spread))]
    fn probable_moment(&self) -> u64
        ensures probable_moment_rounded_up { result ≡ probable_moment self.now.beam.now.section
            self.now.beam.now.materials self.now.force self.now.depth }
        ensures no_more_in_any_beam { result ≤ 5000000000 }
    {
        let bracket = (17 * self.full_block()).saturating_sub(12_500 * self.force);
        (5 * self.force * bracket).div_ceil(680 * strip_of(self.beam))
    }

    // Whether the face has less than the most steel.
    fn is_below_most_steel(&self) -> bool
        ensures { result ≡ test
            (most_steel self.now.beam.now.section self.now.area self.now.depth) }
    {
        400 * self.area < self.beam.section.width as u64 * self.depth
    }

    // Whether this bottom face has half the steel of the top.
    fn has_half_of(&self, top: &Face) -> bool
        ensures { result ≡ test (half_below self.now.area top.now.area) }
    {
        top.area <= 2 * self.area
    }
}

impl Faces<'_> {
    // The shear of the two probable moments over the span.
    #[tactic(auto, using(rebar::proofs::Rounding::rounded_up))]
    fn moment_shear(&self) -> u64
        ensures shear_of_both_moments { result ≡ shear_of_moments self.now }
        ensures no_more_in_any_beam { result ≤ 200000000 }
    {
        let both = self.bottom.probable_moment() + self.top.probable_moment();
        (10 * both).div_ceil(self.beam.member.span as u64)
    }
}

// Whether the ties stand close enough for a frame at an effective depth.
fn is_close_in_frame(ties: &Ties, depth: u64) -> bool
    ensures { result ≡ test (close_in_frame ties.now depth) }
{
    40 * ties.spacing as u64 <= depth && ties.spacing <= 120
}

impl Strengths {
    // The strengths without the concrete, where the moments make more than half of the shear: more than gravity does.
    fn relied_on(&self, gravity: u64, moments: u64) -> Strengths
        ensures no_concrete_where_moments_make_more_than_half { result.concrete
            ≡ relied_on gravity moments self.now.concrete }
        ensures ties_unchanged { result.ties ≡ self.now.ties }
    {
        Strengths {
            concrete: if moments <= gravity { self.concrete } else { 0 },
            ties: self.ties,
            most: self.most,
        }
    }
}

// Asks the articles 27 and 28.
fn ask_in_shear(faces: &Faces) -> Result<(), Broken>
    ensures { answer_of result ≡ first_broken
        (in_frame_shear faces.now.beam.now.section faces.now.beam.now.materials
        faces.now.beam.now.member.shear_factor faces.now.beam.now.actions.gravity
        (shear_of_moments faces.now) faces.now.ties.now (least_depth faces.now)) }
{
    let strengths = Strengths::of(faces);
    let gravity = faces.beam.actions.gravity as u64;
    let moments = faces.moment_shear();
    let shear = Shear {
        force: gravity + moments,
        factor: faces.beam.member.shear_factor as u64,
    };
    ask(27, strengths.section_bears(&shear))?;
    ask(28, strengths.relied_on(gravity, moments).bear(&shear))
}

// Asks all articles of the layer.
fn ask_all(beam: &Beam, cage: &Cage) -> Result<(), Broken>
    ensures { answer_of result ≡ first_broken
        (frame beam.now.section beam.now.materials beam.now.member beam.now.actions cage.now) }
{
    let ties = &cage.ties;
    let bottom = Face::of(beam, ties, &cage.bottom);
    let top = Face::of(beam, ties, &cage.top);
    ask(21, bottom.has_least_steel())?;
    ask(22, top.has_least_steel())?;
    ask(23, bottom.is_below_most_steel())?;
    ask(24, top.is_below_most_steel())?;
    ask(25, bottom.has_half_of(&top))?;
    let faces = Faces {
        beam,
        ties,
        bottom,
        top,
    };
    ask(26, is_close_in_frame(ties, faces.depth()))?;
    ask_in_shear(&faces)
}

impl<B: Book> Book for Frame<B> {
    ghost answer = { λ f beam cage. over (B.Book.answer f.below beam cage)
        (frame_answer beam cage) };

    ghost refusal_told = { λ f beam cage. B.Book.refusal_told f.below beam cage };

    fn check(&self, beam: &Beam, cage: &Cage) -> u8
        ensures answers_its_meaning { result ≡ over (B.answer self.now.below beam.now cage.now)
            (frame_answer beam.now cage.now) }
        ensures lower_answer_comes_first { B.answer self.now.below beam.now cage.now ≢ 0
            → result ≡ B.answer self.now.below beam.now cage.now }
        ensures then_passes_exactly_when_every_article_holds { B.answer
            self.now.below beam.now cage.now ≡ 0
            → PassesExactly (frame_articles_for beam.now cage.now) result }
        ensures then_refusal_names_the_first_broken_article { B.answer
            self.now.below beam.now cage.now ≡ 0
            → RefusesExactly (frame_articles_for beam.now cage.now) result }
    {
        match self.below.check(beam, cage) {
            0 if beam.member.in_frame => answer(ask_all(beam, cage)),
            lower => lower,
        }
    }

    // What the book below refuses at every spacing, the layer does.
    #[tactic(auto, using(crate::proofs::EverySpacing::passed_on))]
    fn refusal_at_every_spacing(&self, beam: &Beam, cage: &Cage) -> Option<u8>
        ensures refusal_told_below { result ≡ B.refusal_told self.now.below beam.now cage.now }
        ensures refused_so_at_every_spacing { MatchOption result (Unit {0})
            (AtEverySpacing (λ b c. over (B.answer self.now.below b c) (frame_answer b c))
            beam.now cage.now) }
    {
        self.below.refusal_at_every_spacing(beam, cage)
    }
}
