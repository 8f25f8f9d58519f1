ghost use Rattle.std.specs.Prelude.{◌≡◌, ◌≢◌, MatchOption, MatchResult};
ghost use Rattle.books.specs.Rules.{first_broken, PassesExactly, RefusesExactly, answer_of};
ghost use Rattle.books.specs.Answers.{AtEverySpacing};
ghost use Rattle.books.specs.Faces.{least_depth, AreOf};
ghost use Rattle.books.specs.General.{in_shear, of_bars, general, articles_for, refusal_of_bars, general_answer};

use crate::article::{Broken, answer, ask};
use crate::book::Book;
use crate::face::{Face, Faces};
use crate::shear::{Shear, Strengths};
use rebar::beam::Beam;
use rebar::cage::{Cage, Ties};

/// The general book: articles 1 to 13. Behind them stand R-033, Articles 115, 117 and 120 for the rows of bars, 68 to 111 for
/// bending and the least steel, and 131 to 142 for shear and the ties (docs/RULES.md).
#[derive(Clone, Copy)]
pub struct General;

// Asks the articles 10 to 13.
fn ask_in_shear(faces: &Faces) -> Result<(), Broken>
    ensures { answer_of result ≡ first_broken
        (in_shear faces.now.beam.now.section faces.now.beam.now.materials
        faces.now.beam.now.member.shear_factor faces.now.beam.now.actions.shear faces.now.ties.now
        (least_depth faces.now)) }
{
    let Faces { beam, ties, .. } = faces;
    let strengths = Strengths::of(faces);
    let shear = Shear {
        force: beam.actions.shear as u64,
        factor: beam.member.shear_factor as u64,
    };
    ask(10, strengths.section_bears(&shear))?;
    ask(11, strengths.bear(&shear))?;
    ask(12, strengths.has_least_ties(beam, ties, &shear))?;
    ask(13, strengths.is_close_enough(ties, faces.depth()))
}

// Asks the articles 1 to 9, and gives the faces where they hold. In line, since handing two faces on takes longer than most
// articles do.
#[inline(always)]
fn ask_of_bars<'a>(beam: &'a Beam, cage: &'a Cage) -> Result<Faces<'a>, Broken>
    ensures { MatchResult result
        (λ faces. (first_broken
        (of_bars beam.now.section beam.now.materials beam.now.actions cage.now) ≡ 0)
        × AreOf beam.now cage.now faces)
        (λ broken. (first_broken
        (of_bars beam.now.section beam.now.materials beam.now.actions cage.now) ≡ broken.article)
        × (broken.article ≢ 0)) }
{
    let ties = &cage.ties;
    let bottom = Face::of(beam, ties, &cage.bottom);
    ask(1, bottom.fits)?;
    let top = Face::of(beam, ties, &cage.top);
    ask(2, top.fits)?;
    ask(3, bottom.stands_apart(&top))?;
    ask(4, bottom.is_ductile())?;
    ask(5, top.is_ductile())?;
    ask(6, bottom.bears_moment(beam.actions.bottom))?;
    ask(7, top.bears_moment(beam.actions.top))?;
    ask(8, bottom.has_least_steel_under(beam.actions.bottom))?;
    ask(9, top.has_least_steel_under(beam.actions.top))?;
    Ok(Faces {
        beam,
        ties,
        bottom,
        top,
    })
}

// Asks all articles of the book.
#[tactic(auto, using(crate::proofs::EverySpacing::bars_refuse, crate::proofs::EverySpacing::shear_answers))]
fn ask_all(beam: &Beam, cage: &Cage) -> Result<(), Broken>
    ensures { answer_of result ≡ first_broken
        (general beam.now.section beam.now.materials beam.now.member beam.now.actions cage.now) }
{
    let faces = ask_of_bars(beam, cage)?;
    ask_in_shear(&faces)
}

impl Book for General {
    ghost answer = { λ _ beam cage. general_answer beam cage };

    ghost refusal_told = { λ _ beam cage. refusal_of_bars beam cage };

    fn check(&self, beam: &Beam, cage: &Cage) -> u8
        ensures answers_its_meaning { result ≡ general_answer beam.now cage.now }
        ensures passes_exactly_when_every_article_holds { PassesExactly
            (articles_for beam.now cage.now) result }
        ensures refusal_names_the_first_broken_article { RefusesExactly
            (articles_for beam.now cage.now) result }
    {
        answer(ask_all(beam, cage))
    }

    // The articles 1 to 9 ask nothing of the spacing.
    fn refusal_at_every_spacing(&self, beam: &Beam, cage: &Cage) -> Option<u8>
        ensures refusal_of_the_bars { result ≡ refusal_of_bars beam.now cage.now }
        ensures refused_so_at_every_spacing { MatchOption result (Unit {0})
            (AtEverySpacing general_answer beam.now cage.now) }
    {
        match ask_of_bars(beam, cage) {
            Ok(_) => None,
            Err(broken) => Some(broken.article),
        }
    }
}
