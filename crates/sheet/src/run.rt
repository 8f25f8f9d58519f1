ghost use Rattle.std.specs.Prelude.{◌≡◌, ℕ, map, reverse};
ghost use Rattle.sheet.specs.Law.{call_of, calls_of, AllAnswered, Lawful};
ghost use Rattle.sheet.specs.declared.reading.Shown.{Shown};
ghost use Rattle.sheet.specs.Runs.{Run};
ghost use Rattle.sheet.specs.Shown.{shown_at};

use crate::call::Exchange;
use crate::sheet::Sheet;
use books::book::Book;

/// Opens a sheet on a pile, makes all calls in their order, and leaves the answer of each beside
/// it. A call that is refused changes nothing, and those after it are made all the same.
pub fn run<P: Book>(pile: P, exchanges: &mut [Exchange<'_>]) -> Sheet<P>
    ensures keeps_the_pile { result.pile ≡ pile }
    ensures same_calls { map call_of exchanges.new ≡ map call_of exchanges.old }
    ensures every_call_answered { AllAnswered (P.Book.answer pile) (reverse exchanges.new) }
    ensures history_of_these_calls { Run (P.Book.answer pile)
        (calls_of exchanges.old) result.table }
    ensures sound_and_lightest { (p : ℕ)
        → Lawful (P.Book.answer pile) (calls_of exchanges.old) p (shown_at result p) }
    ensures shows_nothing_else { (p : ℕ) (shown : Shown)
        → Lawful (P.Book.answer pile) (calls_of exchanges.old) p shown
        → shown ≡ shown_at result p }
{
    let mut sheet = Sheet::open(pile);
    for exchange in exchanges.iter_mut() {
        exchange.answer = Some(sheet.make(&exchange.call));
    }
    sheet
}
