ghost use Rattle.std.specs.Prelude.{◌≡◌, ℕ, Option, None, MatchOption};
ghost use Rattle.rebar.specs.declared.beam.Beam.{Beam};
ghost use Rattle.rebar.specs.declared.cage.Cage.{Cage};
ghost use Rattle.books.specs.Answers.{AtEverySpacing};

use rebar::beam::Beam;
use rebar::cage::Cage;

/// An article book: it answers a beam and a cage with 0 where the cage passes, else with the number of the first
/// article that refuses. Its meaning is that answer for every pair, and a further book has to show only this.
/// The answer is a number and no `Result`, since the rules fix it so for every book.
pub trait Book {
    ghost answer: { Self → Beam → Cage → ℕ };

    // What it tells of every spacing of a cage's ties: of no refusal, where a book does not say otherwise.
    ghost refusal_told: { Self → Beam → Cage → Option ℕ } = { λ _ _ _. None };

    /// The answer to a beam and a cage, always the same for the same pair.
    fn check(&self, beam: &Beam, cage: &Cage) -> u8
        ensures answers_its_meaning { result ≡ answer self.now beam.now cage.now };

    /// A refusal of the cage that holds at every spacing of its ties, where the book tells of one: it spares a search the
    /// questions about the other spacings, and changes nothing else.
    fn refusal_at_every_spacing(&self, beam: &Beam, cage: &Cage) -> Option<u8>
        ensures tells_its_refusal { result ≡ refusal_told self.now beam.now cage.now }
        ensures refused_so_at_every_spacing { MatchOption result
            (Unit {0}) (AtEverySpacing (answer self.now) beam.now cage.now) };
}

/// A book behind a reference is a book, so one book serves several sheets and searches.
impl<B: Book> Book for &B {
    ghost answer = { λ b. B.Book.answer b.now };

    ghost refusal_told = { λ b. B.Book.refusal_told b.now };

    fn check(&self, beam: &Beam, cage: &Cage) -> u8 {
        (**self).check(beam, cage)
    }

    fn refusal_at_every_spacing(&self, beam: &Beam, cage: &Cage) -> Option<u8> {
        (**self).refusal_at_every_spacing(beam, cage)
    }
}
