ghost use Rattle.std.specs.Prelude.{◌≡◌, MatchOption, ◌≢◌, ◌↔◌};
ghost use Rattle.books.specs.Answers.{AtEverySpacing};
ghost use Rattle.books.specs.Rules.{over};
ghost use Rattle.haulage.specs.Haulage.{too_long, too_heavy, TooLong, TooHeavy, haulage_answer};

use books::book::Book;
use rebar::beam::Beam;
use rebar::cage::Cage;

// A layer over any book: articles 71 and 72, what a yard can send out. The bars fit on a lorry's bed
// of so many mm, and the hoist lifts a cage of so many kg. Any two numbers make such a layer.
#[derive(Clone, Copy)]
pub(crate) struct Haulage<B> {
    pub(crate) below: B,
    pub(crate) bed: u32,
    pub(crate) lifts: u32,
}

impl<B: Book> Book for Haulage<B> {
    ghost answer = { λ layer beam cage. over (B.Book.answer layer.below beam cage)
        (haulage_answer layer.bed layer.lifts beam cage) };

    ghost refusal_told = { λ layer beam cage. B.Book.refusal_told layer.below beam cage };

    fn check(&self, beam: &Beam, cage: &Cage) -> u8
        ensures answers_its_meaning { result ≡ over (B.answer self.now.below beam.now cage.now)
            (haulage_answer self.now.bed self.now.lifts beam.now cage.now) }
        ensures lower_answer_comes_first { B.answer self.now.below beam.now cage.now ≢ 0
            → result ≡ B.answer self.now.below beam.now cage.now }
        ensures then_71_exactly_when_too_long { B.answer self.now.below beam.now cage.now ≡ 0
            → (result ≡ too_long) ↔ TooLong self.now.bed beam.now }
        ensures then_72_exactly_when_only_too_heavy { B.answer self.now.below beam.now cage.now ≡ 0
            → (result ≡ too_heavy)
            ↔ ((TooLong self.now.bed beam.now → ⊥) × TooHeavy self.now.lifts beam.now cage.now) }
        ensures then_passes_exactly_when_neither { B.answer self.now.below beam.now cage.now ≡ 0
            → (result ≡ 0) ↔ ((TooLong self.now.bed beam.now → ⊥)
            × (TooHeavy self.now.lifts beam.now cage.now → ⊥)) }
    {
        match self.below.check(beam, cage) {
            0 if self.bed < beam.member.span as u32 => 71,
            0 if 100_000_000 * (self.lifts as u64) < 785 * (beam.steel(cage) as u64) => 72,
            lower => lower,
        }
    }

    // What the book below refuses at every spacing, the layer does.
    #[tactic(auto, using(books::proofs::EverySpacing::passed_on))]
    fn refusal_at_every_spacing(&self, beam: &Beam, cage: &Cage) -> Option<u8>
        ensures refusal_told_below { result ≡ B.refusal_told self.now.below beam.now cage.now }
        ensures refused_so_at_every_spacing { MatchOption result (Unit {0})
            (AtEverySpacing (λ b c. over (B.answer self.now.below b c)
            (haulage_answer self.now.bed self.now.lifts b c)) beam.now cage.now) }
    {
        self.below.refusal_at_every_spacing(beam, cage)
    }
}
