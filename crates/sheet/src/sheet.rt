ghost use Rattle.std.specs.Prelude.{◌≡◌, [], None, Ok, IfOk};
ghost use Rattle.sheet.specs.Calls.{New, Makes, Reads, refusal, done, shows};
ghost use Rattle.sheet.specs.Runs.{Run, Grows, ReadsLawfully, CountsDesigns, AnswersLawfully};
ghost use Rattle.sheet.specs.declared.call.Call.TheVariants as call;

use crate::call::{Answer, Call};
use crate::change::Change;
use crate::place::{PLACES, Place};
use crate::reading::{Reading, Shown};
use crate::refusal::Refusal;
use crate::table::Table;
use books::book::Book;
use search::lightest::lightest_cage;
use stock::stock::Stock;
use stock::stock_mark::StockMark;

/// A sheet on a pile of article books: `PLACES` places for beams, the marks in stock, and a count
/// of designs. A call that is refused changes nothing.
#[derive(Drop)]
pub struct Sheet<P> {
    pile: P,
    table: Table,
}

// The answer to a call that only changes the sheet.
fn done(made: Result<(), Refusal>) -> Result<Answer, Refusal>
    ensures { result ≡ done made }
{
    made.map(|()| Answer::Done)
}

// The answer to a call that reads a place.
fn shows(read: Result<Reading, Refusal>) -> Result<Answer, Refusal>
    ensures { result ≡ shows read }
{
    read.map(Answer::Shows)
}

impl<P: Book> Sheet<P> {
    /// A sheet with every place empty and no mark in stock.
    #[tactic(auto, using(crate::specs::Runs::opened))]
    pub fn open(pile: P) -> Sheet<P>
        ensures keeps_the_pile { result.pile ≡ pile }
        ensures all_places_empty_and_no_stock { New result.table }
        ensures history_begins { Run (P.Book.answer result.pile) [] result.table }
    {
        Sheet {
            pile,
            table: Table {
                places: [None; PLACES as usize],
                stock: Stock::empty(),
                count: 0,
            },
        }
    }

    /// Puts the beam of a card at an empty place, open. Refused where there is no such place (1),
    /// where it holds a beam (2), and where the card has a fault (4 to 8).
    #[tactic(auto, using(crate::proofs::CardsPut::entered, crate::proofs::Runs::grows))]
    pub fn enter(&mut self, place: u8, card: &[u8]) -> Result<(), Refusal>
        ensures keeps_the_pile { self.new.pile ≡ self.old.pile }
        ensures beam_open_or_nothing_changed { Makes (P.Book.answer self.old.pile)
            self.old.table (call.Enter place card.entry) (refusal result) self.new.table }
        ensures history_grows_by_this_call { Grows (P.Book.answer self.old.pile)
            self.old.table (call.Enter place card.entry) (refusal result) self.new.table }
    {
        let place = Place::try_from(place)?;
        if self.table.at(place).is_some() {
            return Err(Refusal::PlaceTaken);
        }
        self.table.put_card(place, card)?;
        Ok(())
    }

    /// Puts the beam of another card in the place of a beam, open. Refused where there is no such
    /// place (1), where it holds no beam (3), and where the card has a fault (4 to 8).
    #[tactic(auto, using(crate::proofs::CardsPut::corrected, crate::proofs::Runs::grows))]
    pub fn correct(&mut self, place: u8, card: &[u8]) -> Result<(), Refusal>
        ensures keeps_the_pile { self.new.pile ≡ self.old.pile }
        ensures beam_replaced_and_open_or_nothing_changed { Makes (P.Book.answer self.old.pile)
            self.old.table (call.Correct place card.entry) (refusal result) self.new.table }
        ensures history_grows_by_this_call { Grows (P.Book.answer self.old.pile)
            self.old.table (call.Correct place card.entry) (refusal result) self.new.table }
    {
        let place = Place::try_from(place)?;
        if self.table.at(place).is_none() {
            return Err(Refusal::PlaceEmpty);
        }
        self.table.put_card(place, card)?;
        Ok(())
    }

    /// Empties a place that holds a beam. Refused where there is no such place (1), and where it
    /// holds no beam (3).
    #[tactic(auto, using(crate::proofs::Runs::grows))]
    pub fn strike(&mut self, place: u8) -> Result<(), Refusal>
        ensures keeps_the_pile { self.new.pile ≡ self.old.pile }
        ensures place_empty_or_nothing_changed { Makes (P.Book.answer self.old.pile)
            self.old.table (call.Strike place) (refusal result) self.new.table }
        ensures history_grows_by_this_call { Grows (P.Book.answer self.old.pile)
            self.old.table (call.Strike place) (refusal result) self.new.table }
    {
        let place = Place::try_from(place)?;
        self.table.at(place).ok_or(Refusal::PlaceEmpty)?;
        self.table.put(place, None);
        Ok(())
    }

    /// Sets a mark of a kind, 0 for main bars and 1 for ties, in or out of stock. Refused where the
    /// yard knows no such mark in such a kind (9); any byte may come as either.
    #[tactic(auto, using(crate::proofs::Marks::unknown, crate::proofs::Runs::grows))]
    pub fn stock(&mut self, kind: u8, mark: u8, is_in: bool) -> Result<(), Refusal>
        ensures keeps_the_pile { self.new.pile ≡ self.old.pile }
        ensures mark_set_or_nothing_changed { Makes (P.Book.answer self.old.pile)
            self.old.table (call.Stock kind mark is_in) (refusal result) self.new.table }
        ensures history_grows_by_this_call { Grows (P.Book.answer self.old.pile)
            self.old.table (call.Stock kind mark is_in) (refusal result) self.new.table }
    {
        let item = StockMark::new(kind, mark).ok_or(Refusal::NoSuchMark)?;
        self.table.restock(&Change { item, is_in });
        Ok(())
    }

    /// Designs the beam at a place: stores the lightest cage from stock that the pile passes for
    /// it, or that none passes. Refused where there is no such place (1), where it holds no beam
    /// (3), and where no main mark or no tie mark is in (10).
    #[tactic(auto, using(crate::proofs::Runs::grows))]
    pub fn design(&mut self, place: u8) -> Result<(), Refusal>
        ensures keeps_the_pile { self.new.pile ≡ self.old.pile }
        ensures lightest_stored_or_nothing_changed { Makes (P.Book.answer self.old.pile)
            self.old.table (call.Design place) (refusal result) self.new.table }
        ensures history_grows_by_this_call { Grows (P.Book.answer self.old.pile)
            self.old.table (call.Design place) (refusal result) self.new.table }
    {
        let place = Place::try_from(place)?;
        let entry = self.table.at(place).ok_or(Refusal::PlaceEmpty)?;
        if !self.table.stock.offers_cages() {
            return Err(Refusal::NothingInStock);
        }
        let decision = lightest_cage(&self.pile, &entry.beam, &self.table.stock);
        self.table.settle(place, entry.beam, decision);
        Ok(())
    }

    /// What a place shows. Refused where there is no such place (1).
    #[tactic(auto, using(crate::proofs::Runs::grows, crate::proofs::Runs::reads_lawfully))]
    pub fn read(&self, place: u8) -> Result<Reading, Refusal>
        ensures what_the_place_shows { Reads place self.now.table result }
        ensures history_grows_by_this_call { Grows (P.Book.answer self.now.pile)
            self.now.table (call.Read place) (refusal result) self.now.table }
        ensures sound_and_lightest { ReadsLawfully (P.Book.answer self.now.pile)
            self.now.table place result }
    {
        let place = Place::try_from(place)?;
        Ok(Reading {
            place: place.number,
            shown: Shown::of(self.table.at(place)),
        })
    }

    /// How many design orders were not refused, up to the greatest number.
    #[tactic(auto, using(crate::proofs::Runs::grows, crate::proofs::Runs::counts_designs))]
    pub fn count(&self) -> u32
        ensures count_of_the_table { result ≡ self.now.table.count }
        ensures history_grows_by_this_call { Grows (P.Book.answer self.now.pile)
            self.now.table call.Count None self.now.table }
        ensures designs_that_were_not_refused { CountsDesigns (P.Book.answer self.now.pile)
            self.now.table result }
    {
        self.table.count
    }

    // Designs the beam at a place, and reads what was decided.
    #[tactic(auto, using(crate::proofs::Answering::read_designed))]
    fn design_and_read(&mut self, place: u8) -> Result<Reading, Refusal>
        ensures keeps_the_pile { self.new.pile ≡ self.old.pile }
        ensures as_the_call { Makes (P.Book.answer self.old.pile)
            self.old.table (call.Design place) (refusal result) self.new.table }
        ensures what_the_place_then_shows { IfOk result
            (λ reading. Reads place self.new.table (Ok reading)) }
    {
        self.design(place)?;
        self.read(place)
    }

    /// Makes a call, whichever it is, and answers it: a design order with what its place then
    /// shows. Refused as the call's own method refuses it.
    #[tactic(auto, using(crate::proofs::Runs::grows, crate::proofs::Answering::done_made, crate::proofs::Answering::read_made, crate::proofs::Answering::done_lawfully, crate::proofs::Answering::shown_lawfully, crate::proofs::Answering::design_made, crate::proofs::Answering::designed_lawfully, crate::proofs::Answering::counted_lawfully))]
    pub fn make(&mut self, call: &Call) -> Result<Answer, Refusal>
        ensures keeps_the_pile { self.new.pile ≡ self.old.pile }
        ensures as_the_call { Makes (P.Book.answer self.old.pile)
            self.old.table call.now (refusal result) self.new.table }
        ensures history_grows_by_this_call { Grows (P.Book.answer self.old.pile)
            self.old.table call.now (refusal result) self.new.table }
        ensures as_the_calls_before_determine { AnswersLawfully (P.Book.answer self.old.pile)
            self.old.table call.now result }
    {
        match *call {
            Call::Enter { place, card } => done(self.enter(place, card)),
            Call::Correct { place, card } => done(self.correct(place, card)),
            Call::Strike { place } => done(self.strike(place)),
            Call::Stock { kind, mark, is_in } => done(self.stock(kind, mark, is_in)),
            Call::Design { place } => shows(self.design_and_read(place)),
            Call::Read { place } => shows(self.read(place)),
            Call::Count => Ok(Answer::Designs(self.count())),
        }
    }
}
