use books::book::Book;
use rebar::beam::Beam;
use rebar::cage::Cage;
use std::cell::Cell;

// A layer that answers as the book below it, and counts the questions.
#[derive(Drop)]
pub(crate) struct Counted<B> {
    pub(crate) below: B,
    pub(crate) questions: Cell<u64>,
}

impl<B> Counted<B> {
    // One question more.
    fn count(&self) {
        self.questions.set(self.questions.get().saturating_add(1));
    }
}

impl<B: Book> Book for Counted<B> {
    ghost answer = { λ counted beam cage. B.Book.answer counted.below beam cage };

    ghost refusal_told = { λ counted beam cage. B.Book.refusal_told counted.below beam cage };

    fn check(&self, beam: &Beam, cage: &Cage) -> u8 {
        self.count();
        self.below.check(beam, cage)
    }

    fn refusal_at_every_spacing(&self, beam: &Beam, cage: &Cage) -> Option<u8> {
        self.count();
        self.below.refusal_at_every_spacing(beam, cage)
    }
}
