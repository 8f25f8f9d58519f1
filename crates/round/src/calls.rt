use crate::workshop::Workshop;
use rebar::cage::{Bars, Cage, Ties};
use sheet::call::{Answer, Call, Exchange};
use sheet::reading::{Reading, Shown};
use sheet::refusal::Refusal;
use sheet::run::run;
use std::alloc::Global;
use std::process::Abort;
use std::test::Fail;

// 300 by 500, cover 40, span 5,000: both main marks together are 10 at least.
const MIDDLE: [u8; 34] = *b"\x02\x8b\x01\x2c\x01\xf4\x00\xd2\x13\x88\
    \xff\xff\xf0\x60\x00\x00\x13\x88\x00\x00\x0b\xb8\x00\x00\x00\x00\xff\xff\xf0\x60\xff\xff\xec\x78";

// The same beam with span 11,000, for which every tie is too thin.
const ENDLESS: [u8; 34] = *b"\x02\x8b\x01\x2c\x01\xf4\x00\xd2\x2a\xf8\
    \xff\xff\xf0\x60\x00\x00\x13\x88\x00\x00\x0b\xb8\x00\x00\x00\x00\xff\xff\xf0\x60\xff\xff\xec\x78";

// The cage of the first beam where only main mark 5 and tie mark 3 are in.
const CAGE: Cage = Cage {
    bottom: Bars { mark: 5, number: 2 },
    top: Bars { mark: 5, number: 2 },
    ties: Ties {
        mark: 3,
        spacing: 400,
    },
};

// Its steel: 5,000 × 4 × 199, and 14 ties of 1,430 mm with 71 mm².
const STEEL: u32 = 5_401_420;

// What a call was answered, so that two answers can be compared.
#[derive(Clone, Copy, Debug, PartialEq, Eq)]
enum Told {
    Nothing,
    Done,
    Empty(u8),
    Open(u8),
    Chosen(u8, Cage, u32),
    Impossible(u8, u8),
    Designs(u32),
    Refused(Refusal),
}

impl From<Reading> for Told {
    fn from(reading: Reading) -> Told {
        let place = reading.place;
        match reading.shown {
            Shown::Empty => Told::Empty(place),
            Shown::Open => Told::Open(place),
            Shown::Chosen(choice) => Told::Chosen(place, choice.cage, choice.steel),
            Shown::Impossible(article) => Told::Impossible(place, article),
        }
    }
}

impl From<&Exchange<'_>> for Told {
    fn from(exchange: &Exchange<'_>) -> Told {
        match exchange.answer {
            None => Told::Nothing,
            Some(Ok(Answer::Done)) => Told::Done,
            Some(Ok(Answer::Shows(reading))) => reading.into(),
            Some(Ok(Answer::Designs(designs))) => Told::Designs(designs),
            Some(Err(refusal)) => Told::Refused(refusal),
        }
    }
}

// The calls of a list, none of them made yet.
fn unanswered<'a>(heap: Global, calls: &[(Call<'a>, Told)]) -> Result<Vec<Exchange<'a>>, Fail> {
    let mut exchanges = Vec::new(heap);
    for (call, _) in calls {
        exchanges.push(Exchange {
            call: *call,
            answer: None,
        })?;
    }
    Ok(exchanges)
}

// Whether the calls of a list are answered so.
fn answers(rt: &(impl Abort + AllocGlobal), calls: &[(Call, Told)]) -> Result<(), Fail> {
    let mut exchanges = unanswered(rt.alloc(), calls)?;
    run(Workshop, exchanges.as_mut_slice());
    for (exchange, (_, expected)) in exchanges.as_slice().iter().zip(calls) {
        assert!(rt; Told::from(exchange) == *expected);
    }
    Ok(())
}

// A main mark or a tie mark that comes in or goes out.
fn stock(kind: u8, mark: u8, is_in: bool) -> Call<'static> {
    Call::Stock { kind, mark, is_in }
}

// A card for a place that is empty.
fn enter(place: u8, card: &[u8]) -> Call<'_> {
    Call::Enter { place, card }
}

// A card for a place that holds a beam.
fn correct(place: u8, card: &[u8]) -> Call<'_> {
    Call::Correct { place, card }
}

#[test]
fn calls_of_all_kinds(rt: HostRuntime) -> Result<(), Fail> {
    answers(
        &rt,
        &[
            (Call::Count, Told::Designs(0)),
            (Call::Read { place: 7 }, Told::Empty(7)),
            (
                Call::Read { place: 64 },
                Told::Refused(Refusal::NoSuchPlace),
            ),
            (enter(7, &MIDDLE), Told::Done),
            (enter(7, &MIDDLE), Told::Refused(Refusal::PlaceTaken)),
            (Call::Read { place: 7 }, Told::Open(7)),
            (
                Call::Design { place: 7 },
                Told::Refused(Refusal::NothingInStock),
            ),
            (stock(1, 6, true), Told::Refused(Refusal::NoSuchMark)),
            (stock(0, 5, true), Told::Done),
            (stock(1, 3, true), Told::Done),
            (Call::Count, Told::Designs(0)),
            (Call::Design { place: 7 }, Told::Chosen(7, CAGE, STEEL)),
            (Call::Read { place: 7 }, Told::Chosen(7, CAGE, STEEL)),
            (correct(7, &ENDLESS), Told::Done),
            (Call::Read { place: 7 }, Told::Open(7)),
            (Call::Design { place: 7 }, Told::Impossible(7, 200)),
            (Call::Read { place: 7 }, Told::Impossible(7, 200)),
            (Call::Strike { place: 7 }, Told::Done),
            (Call::Read { place: 7 }, Told::Empty(7)),
            (
                Call::Strike { place: 7 },
                Told::Refused(Refusal::PlaceEmpty),
            ),
            (correct(7, &MIDDLE), Told::Refused(Refusal::PlaceEmpty)),
            (
                Call::Design { place: 7 },
                Told::Refused(Refusal::PlaceEmpty),
            ),
            (Call::Count, Told::Designs(2)),
        ],
    )
}

#[test]
fn marks_that_reopen(rt: HostRuntime) -> Result<(), Fail> {
    answers(
        &rt,
        &[
            (stock(0, 5, true), Told::Done),
            (stock(1, 3, true), Told::Done),
            (enter(0, &MIDDLE), Told::Done),
            (enter(63, &ENDLESS), Told::Done),
            (Call::Design { place: 0 }, Told::Chosen(0, CAGE, STEEL)),
            (Call::Design { place: 63 }, Told::Impossible(63, 200)),
            // as they were
            (stock(0, 5, true), Told::Done),
            (stock(1, 4, false), Told::Done),
            (Call::Read { place: 0 }, Told::Chosen(0, CAGE, STEEL)),
            (Call::Read { place: 63 }, Told::Impossible(63, 200)),
            // in
            (stock(1, 5, true), Told::Done),
            (Call::Read { place: 0 }, Told::Open(0)),
            (Call::Read { place: 63 }, Told::Open(63)),
            (Call::Design { place: 0 }, Told::Chosen(0, CAGE, STEEL)),
            (Call::Design { place: 63 }, Told::Impossible(63, 200)),
            // out: a tie mark whose number the main bars have
            (stock(1, 5, false), Told::Done),
            (Call::Read { place: 0 }, Told::Chosen(0, CAGE, STEEL)),
            (Call::Read { place: 63 }, Told::Open(63)),
            (stock(1, 3, false), Told::Done),
            (Call::Read { place: 0 }, Told::Open(0)),
            (Call::Count, Told::Designs(4)),
        ],
    )
}
