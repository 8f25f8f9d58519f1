ghost use Rattle.std.specs.Prelude.{◌≡◌, ◌<◌};
ghost use Rattle.std.specs.List.{AllWithin};
ghost use Rattle.rebar.specs.Steel.{bars_steel, ties_steel, steel};
ghost use Rattle.books.specs.Answers.{AtEverySpacing};
ghost use Rattle.stock.specs.Stock.{has};
ghost use Rattle.search.specs.declared.places.TheConstants.{BARS, TIES, TIE_MARKS};
ghost use Rattle.search.specs.declared.decision.Decision.{Decision};
ghost use Rattle.search.specs.declared.decision.Decision.TheVariants.{Impossible};
ghost use Rattle.search.specs.Lightest.{FromStock, Lightest};
ghost use Rattle.search.specs.Search.{bars_place, ties_place, mark_place, IsByPlace};
ghost use Rattle.search.specs.Search.{MainIn, TieIn, Covers, Step, Done, IsLike};

use crate::decision::{Choice, Decision};
use crate::places::{
    BARS, SPACINGS, TIE_MARKS, TIES, WeighedBars, WeighedTies, all_bars, all_ties,
};
use books::book::Book;
use rebar::beam::Beam;
use rebar::cage::Cage;
use stock::stock::Stock;

// A search of a beam on a pile from a stock: all bars and all ties with their steel in the beam.
#[derive(Drop)]
struct Search<'a, P> {
    pile: &'a P,
    beam: &'a Beam,
    stock: &'a Stock,
    bars: [WeighedBars; BARS],
    ties: [WeighedTies; TIES],
    ghost every_bars: { IsByPlace (λ b. bars_place b.bars) bars BARS },
    ghost bars_weighed: { AllWithin (λ b. b.steel ≡ bars_steel beam.now b.bars) bars 0 BARS },
    ghost every_ties: { IsByPlace (λ t. ties_place t.ties) ties TIES },
    ghost ties_weighed: { AllWithin (λ t. t.steel ≡ ties_steel beam.now t.ties) ties 0 TIES },
}

impl<'a, P> Search<'a, P> {
    // The search of this beam, on this pile, from this stock.
    fn new(pile: &'a P, beam: &'a Beam, stock: &'a Stock) -> Search<'a, P>
        ensures of_these { (result.pile.now ≡ pile.now) × (result.beam.now ≡ beam.now)
            × (result.stock.now ≡ stock.now) }
    {
        Search {
            pile,
            beam,
            stock,
            bars: all_bars(beam),
            ties: all_ties(beam),
        }
    }
}

impl<P: Book> Search<'_, P> {
    // The decision with one more cage.
    #[tactic(auto, using(crate::proofs::Steps::replaced, crate::proofs::Steps::refused))]
    fn weigh(&self, choice: Choice, best: Decision) -> Decision
        requires from_stock { FromStock (has self.now.stock.now) choice.cage }
        requires weighed { choice.steel ≡ steel self.now.beam.now choice.cage }
        ensures keeps_what_was_right { Step (P.answer self.now.pile.now) (has self.now.stock.now)
            self.now.beam.now best result }
        ensures right_for_this_cage { Covers (P.answer self.now.pile.now) self.now.beam.now result
            choice.cage }
    {
        match best {
            Decision::Chosen(chosen) => {
                if choice.is_lighter(&chosen) && self.pile.check(self.beam, &choice.cage) == 0 {
                    Decision::Chosen(choice)
                } else {
                    best
                }
            }
            Decision::Impossible(greatest) => {
                let answer = self.pile.check(self.beam, &choice.cage);
                if answer == 0 {
                    Decision::Chosen(choice)
                } else {
                    Decision::Impossible(greatest.max(answer))
                }
            }
        }
    }

    // The decision with the cages of the same bars and ties of the same mark as one that the pile refuses at every spacing.
    #[tactic(auto, using(crate::proofs::Steps::refused_so, crate::proofs::Steps::none_like, crate::proofs::Steps::none_better))]
    fn weigh_refused(&self, cage: &Cage, number: u8, best: Decision) -> Decision
        requires from_stock { FromStock (has self.now.stock.now) cage.now }
        requires refused { AtEverySpacing (P.answer self.now.pile.now) self.now.beam.now cage.now
            number }
        ensures keeps_what_was_right { Step (P.answer self.now.pile.now) (has self.now.stock.now)
            self.now.beam.now best result }
        ensures right_for_these_cages { Done (P.answer self.now.pile.now) self.now.beam.now
            (IsLike cage.now) result }
    {
        match best {
            Decision::Chosen(_) => best,
            Decision::Impossible(greatest) => Decision::Impossible(greatest.max(number)),
        }
    }

    // The decision with the cage of these bars and ties.
    fn weigh_cage(
        &self,
        bottom: &WeighedBars,
        top: &WeighedBars,
        ties: &WeighedTies,
        best: Decision,
    ) -> Decision
        requires all_in { MainIn (has self.now.stock.now) bottom.now.bars
            × MainIn (has self.now.stock.now) top.now.bars
            × TieIn (has self.now.stock.now) ties.now.ties }
        requires weighed { (bottom.now.steel ≡ bars_steel self.now.beam.now bottom.now.bars)
            × (top.now.steel ≡ bars_steel self.now.beam.now top.now.bars)
            × (ties.now.steel ≡ ties_steel self.now.beam.now ties.now.ties) }
        ensures keeps_what_was_right { Step (P.answer self.now.pile.now) (has self.now.stock.now)
            self.now.beam.now best result }
        ensures right_for_these_cages { Done (P.answer self.now.pile.now) self.now.beam.now
            (λ d. (d.bottom ≡ bottom.now.bars) × (d.top ≡ top.now.bars) × (d.ties ≡ ties.now.ties))
            result }
    {
        let cage = Cage {
            bottom: bottom.bars,
            top: top.bars,
            ties: ties.ties,
        };
        let steel = bottom.steel + top.steel + ties.steel;
        self.weigh(Choice { cage, steel }, best)
    }

    // The decision with the cages of one bottom, one top and the ties of the mark at a place, the lightest cage first. With no
    // question about them where the mark is out or the lightest is too heavy, and with one where the pile refuses it at every
    // spacing.
    fn weigh_spacings(
        &self,
        bottom: &WeighedBars,
        top: &WeighedBars,
        mark: usize,
        best: Decision,
    ) -> Decision
        requires place_of_a_mark { mark < TIE_MARKS }
        requires bars_in { MainIn (has self.now.stock.now) bottom.now.bars
            × MainIn (has self.now.stock.now) top.now.bars }
        requires weighed { (bottom.now.steel ≡ bars_steel self.now.beam.now bottom.now.bars)
            × (top.now.steel ≡ bars_steel self.now.beam.now top.now.bars) }
        ensures keeps_what_was_right { Step (P.answer self.now.pile.now) (has self.now.stock.now)
            self.now.beam.now best result }
        ensures right_for_these_cages { Done (P.answer self.now.pile.now) self.now.beam.now
            (λ d. FromStock (has self.now.stock.now) d × (d.bottom ≡ bottom.now.bars)
            × (d.top ≡ top.now.bars) × (mark_place d.ties ≡ mark)) result }
    {
        let all = &self.ties;
        let first = SPACINGS * mark;
        let ties = &all[first..first + SPACINGS];
        let widest = ties[0];
        if !self.stock.has_ties(&widest.ties)
            || best.stands_against(bottom.steel + top.steel + widest.steel)
        {
            return best;
        }
        let lightest = Cage {
            bottom: bottom.bars,
            top: top.bars,
            ties: widest.ties,
        };
        if let Some(answer) = self.pile.refusal_at_every_spacing(self.beam, &lightest) {
            return self.weigh_refused(&lightest, answer, best);
        }
        let mut found = best;
        for t in ties {
            found = self.weigh_cage(bottom, top, t, found);
        }
        found
    }

    // The decision with the cages of one bottom and one top from stock.
    fn weigh_ties(&self, bottom: &WeighedBars, top: &WeighedBars, best: Decision) -> Decision
        requires bars_in { MainIn (has self.now.stock.now) bottom.now.bars
            × MainIn (has self.now.stock.now) top.now.bars }
        requires weighed { (bottom.now.steel ≡ bars_steel self.now.beam.now bottom.now.bars)
            × (top.now.steel ≡ bars_steel self.now.beam.now top.now.bars) }
        ensures keeps_what_was_right { Step (P.answer self.now.pile.now) (has self.now.stock.now)
            self.now.beam.now best result }
        ensures right_for_these_cages { Done (P.answer self.now.pile.now) self.now.beam.now
            (λ d. FromStock (has self.now.stock.now) d × (d.bottom ≡ bottom.now.bars)
            × (d.top ≡ top.now.bars)) result }
    {
        let mut found = best;
        for mark in 0..TIE_MARKS {
            found = self.weigh_spacings(bottom, top, mark, found);
        }
        found
    }

    // The decision with the cages of one bottom and one top, with no look at them where the top is out or the bars alone are too
    // heavy.
    fn weigh_top(&self, bottom: &WeighedBars, top: &WeighedBars, best: Decision) -> Decision
        requires bottom_in { MainIn (has self.now.stock.now) bottom.now.bars }
        requires weighed { (bottom.now.steel ≡ bars_steel self.now.beam.now bottom.now.bars)
            × (top.now.steel ≡ bars_steel self.now.beam.now top.now.bars) }
        ensures keeps_what_was_right { Step (P.answer self.now.pile.now) (has self.now.stock.now)
            self.now.beam.now best result }
        ensures right_for_these_cages { Done (P.answer self.now.pile.now) self.now.beam.now
            (λ d. FromStock (has self.now.stock.now) d × (d.bottom ≡ bottom.now.bars)
            × (d.top ≡ top.now.bars)) result }
    {
        if !self.stock.has_bars(&top.bars) || best.stands_against(bottom.steel + top.steel) {
            return best;
        }
        self.weigh_ties(bottom, top, best)
    }

    // The decision with the cages of one bottom. This loop and the ones beside it are not one over a closure, since each says
    // another thing of the cages that are covered.
    fn weigh_tops(&self, bottom: &WeighedBars, best: Decision) -> Decision
        requires { bottom.now.steel ≡ bars_steel self.now.beam.now bottom.now.bars }
        ensures keeps_what_was_right { Step (P.answer self.now.pile.now) (has self.now.stock.now)
            self.now.beam.now best result }
        ensures right_for_these_cages { Done (P.answer self.now.pile.now) self.now.beam.now
            (λ d. FromStock (has self.now.stock.now) d × (d.bottom ≡ bottom.now.bars)) result }
    {
        if !self.stock.has_bars(&bottom.bars) {
            return best;
        }
        let mut found = best;
        for top in &self.bars {
            found = self.weigh_top(bottom, top, found);
        }
        found
    }

    // The decision with the cages whose bottom and top are equal: a first guess, after which most other cages are too heavy to
    // be asked about.
    fn weigh_twins(&self, best: Decision) -> Decision
        ensures keeps_what_was_right { Step (P.answer self.now.pile.now) (has self.now.stock.now)
            self.now.beam.now best result }
    {
        let mut found = best;
        for bars in &self.bars {
            if self.stock.has_bars(&bars.bars) {
                found = self.weigh_ties(bars, bars, found);
            }
        }
        found
    }

    // The decision with all cages.
    fn weigh_bottoms(&self, best: Decision) -> Decision
        ensures keeps_what_was_right { Step (P.answer self.now.pile.now) (has self.now.stock.now)
            self.now.beam.now best result }
        ensures right_for_these_cages { Done (P.answer self.now.pile.now) self.now.beam.now
            (FromStock (has self.now.stock.now)) result }
    {
        let mut found = best;
        for bottom in &self.bars {
            found = self.weigh_tops(bottom, found);
        }
        found
    }

    // The decision with all cages, from none found: the first guess, then all.
    #[tactic(auto, using(crate::proofs::Loops::by_another))]
    fn weigh_all(&self) -> Decision
        ensures from_none_found { Step (P.answer self.now.pile.now) (has self.now.stock.now)
            self.now.beam.now (Impossible 0) result }
        ensures right_for_these_cages { Done (P.answer self.now.pile.now) self.now.beam.now
            (FromStock (has self.now.stock.now)) result }
    {
        let guess = self.weigh_twins(Decision::Impossible(0));
        self.weigh_bottoms(guess)
    }
}

/// The lightest cage from stock that the pile passes for the beam, of equals the smallest; or where none passes, the
/// greatest number with which the pile refuses one (0 where no cage is from stock).
#[tactic(auto, using(crate::proofs::Loops::settled, crate::proofs::One::only_settled))]
pub fn lightest_cage<P: Book>(pile: &P, beam: &Beam, stock: &Stock) -> Decision
    ensures lightest_or_none { Lightest (P.answer pile.now) (has stock.now) beam.now result }
    ensures decision_is_the_only_one { (s : Decision)
        → Lightest (P.answer pile.now) (has stock.now) beam.now s → s ≡ result }
{
    Search::new(pile, beam, stock).weigh_all()
}
