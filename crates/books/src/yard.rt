ghost use Rattle.std.specs.Prelude.{◌≡◌, MatchOption, ◌≢◌};
ghost use Rattle.books.specs.Rules.{test, over, first_broken, PassesExactly, RefusesExactly, answer_of};
ghost use Rattle.books.specs.Answers.{AtEverySpacing};
ghost use Rattle.books.specs.Yard.{few_bars, wide_spacing, one_mark, yard_articles, yard_answer};

use crate::article::{Broken, answer, ask};
use crate::book::Book;
use rebar::beam::Beam;
use rebar::cage::Cage;

/// A layer over any book: articles 41 to 43, what a yard bends. Any three numbers make such a layer.
#[derive(Clone, Copy)]
pub struct Yard<B> {
    pub below: B,
    /// The most bars of a face.
    pub most_bars: u32,
    /// The least spacing of the ties, in mm.
    pub least_spacing: u32,
    /// Where it isn't 0, both faces have bars of one mark.
    pub one_mark: u32,
}

impl<B> Yard<B> {
    // Whether neither face has too many bars.
    fn has_few_bars(&self, cage: &Cage) -> bool
        ensures { result ≡ test (few_bars self.now.most_bars cage.now) }
    {
        cage.bottom.number as u32 <= self.most_bars && cage.top.number as u32 <= self.most_bars
    }

    // Whether the ties stand far enough apart.
    fn has_wide_spacing(&self, cage: &Cage) -> bool
        ensures { result ≡ test (wide_spacing self.now.least_spacing cage.now.ties) }
    {
        self.least_spacing <= cage.ties.spacing as u32
    }

    // Whether the main bars are of one mark, where they have to be.
    fn has_one_mark(&self, cage: &Cage) -> bool
        ensures { result ≡ test (one_mark self.now.one_mark cage.now) }
    {
        self.one_mark == 0 || cage.bottom.mark == cage.top.mark
    }

    // Asks all articles of the layer.
    #[tactic(auto, unfolding(crate::specs::Yard::yard_articles))]
    fn ask_all(&self, cage: &Cage) -> Result<(), Broken>
        ensures { answer_of result ≡ first_broken
            (yard_articles self.now.most_bars self.now.least_spacing self.now.one_mark cage.now) }
    {
        ask(41, self.has_few_bars(cage))?;
        ask(42, self.has_wide_spacing(cage))?;
        ask(43, self.has_one_mark(cage))
    }
}

impl<B: Book> Book for Yard<B> {
    ghost answer = { λ y beam cage. over (B.Book.answer y.below beam cage)
        (yard_answer y.most_bars y.least_spacing y.one_mark cage) };

    ghost refusal_told = { λ y beam cage. B.Book.refusal_told y.below beam cage };

    fn check(&self, beam: &Beam, cage: &Cage) -> u8
        ensures answers_its_meaning { result ≡ over (B.answer self.now.below beam.now cage.now)
            (yard_answer self.now.most_bars self.now.least_spacing self.now.one_mark cage.now) }
        ensures lower_answer_comes_first { B.answer self.now.below beam.now cage.now ≢ 0
            → result ≡ B.answer self.now.below beam.now cage.now }
        ensures then_passes_exactly_when_every_article_holds { B.answer
            self.now.below beam.now cage.now ≡ 0
            → PassesExactly
            (yard_articles self.now.most_bars self.now.least_spacing self.now.one_mark cage.now)
            result }
        ensures then_refusal_names_the_first_broken_article { B.answer
            self.now.below beam.now cage.now ≡ 0
            → RefusesExactly
            (yard_articles self.now.most_bars self.now.least_spacing self.now.one_mark cage.now)
            result }
    {
        match self.below.check(beam, cage) {
            0 => answer(self.ask_all(cage)),
            lower => lower,
        }
    }

    // What the book below refuses at every spacing, the layer does.
    #[tactic(auto, using(crate::proofs::EverySpacing::passed_on))]
    fn refusal_at_every_spacing(&self, beam: &Beam, cage: &Cage) -> Option<u8>
        ensures refusal_told_below { result ≡ B.refusal_told self.now.below beam.now cage.now }
        ensures refused_so_at_every_spacing { MatchOption result (Unit {0})
            (AtEverySpacing (λ b c. over (B.answer self.now.below b c)
            (yard_answer self.now.most_bars self.now.least_spacing self.now.one_mark c))
            beam.now cage.now) }
    {
        self.below.refusal_at_every_spacing(beam, cage)
    }
}
