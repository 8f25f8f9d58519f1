ghost use Rattle.std.specs.Prelude.{◌≡◌, map};
ghost use Rattle.sheet.specs.Calls.{PutsCardOrRefuses};
ghost use Rattle.sheet.specs.Places.{place_reopened};
ghost use Rattle.sheet.specs.Table.{place_at, with_place, restocked, settled};

use crate::change::Change;
use crate::entry::Entry;
use crate::place::{PLACES, Place};
use crate::refusal::Refusal;
use card::reader::read_card;
use rebar::beam::Beam;
use search::decision::Decision;
use stock::stock::Stock;

// The places of a sheet, the marks in stock, and how many designs were made.
#[derive(Drop)]
pub(crate) struct Table {
    pub(crate) places: [Option<Entry>; PLACES as usize],
    pub(crate) stock: Stock,
    pub(crate) count: u32,
}

// Opens the beam at a place again where its decision may no longer be right.
fn reopen_place(held: &mut Option<Entry>, change: &Change)
    ensures { held.new
        ≡ place_reopened change.now.item.kind change.now.item.mark change.now.is_in held.old }
{
    if let Some(entry) = held {
        entry.reopen(change);
    }
}

// Reopens every beam whose decision may no longer be right.
fn reopen(places: &mut [Option<Entry>; PLACES as usize], change: &Change)
    ensures { places.new ≡ map
        (place_reopened change.now.item.kind change.now.item.mark change.now.is_in) places.old }
{
    for place in places.iter_mut() {
        reopen_place(place, change);
    }
}

impl Table {
    // What a place holds.
    pub(crate) fn at(&self, place: Place) -> Option<Entry>
        ensures { result ≡ place_at self.now place.number }
    {
        self.places[place.number as usize]
    }

    // Puts a beam at a place, or empties it.
    pub(crate) fn put(&mut self, place: Place, held: Option<Entry>)
        ensures { self.new ≡ with_place self.old place.number held }
    {
        self.places[place.number as usize] = held;
    }

    // Puts the beam of a card at a place, open; nothing changes where the card has a fault.
    pub(crate) fn put_card(&mut self, place: Place, card: &[u8]) -> Result<(), Refusal>
        ensures { PutsCardOrRefuses place.number card.now self.old result self.new }
    {
        let beam = read_card(card)?;
        self.put(place, Some(Entry::open(beam)));
        Ok(())
    }

    // Sets a mark in or out.
    pub(crate) fn restock(&mut self, change: &Change)
        ensures { self.new ≡ restocked
            change.now.item.kind change.now.item.mark change.now.is_in self.old }
    {
        if self.stock.holds(&change.item) == change.is_in {
            return;
        }
        reopen(&mut self.places, change);
        self.stock.set(&change.item, change.is_in);
    }

    // Puts a decision at the place of its beam, and counts it.
    pub(crate) fn settle(&mut self, place: Place, beam: Beam, decision: Decision)
        ensures { self.new ≡ settled place.number beam decision self.old }
    {
        self.put(
            place,
            Some(Entry {
                beam,
                decision: Some(decision),
            }),
        );
        self.count = self.count.saturating_add(1);
    }
}
