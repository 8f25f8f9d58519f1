//! A console, from its first byte to the bill.
ghost use Rattle.std.specs.Prelude.{◌≡◌, ◌+◌, ◌<◌, ◌≤◌, true, false, [], ◌++◌, length, codes, if◌then◌else◌};
ghost use Rattle.arrayvec.specs.ArrayVec.{array_vec_len};
ghost use Rattle.console.specs.Orders.{begins_known};
ghost use Rattle.console.specs.declared.order.TheConstants.{LONGEST_ORDER};

use crate::billing::{PAGE, write_bill};
use crate::line::{Line, line_of};
use crate::order::{LONGEST_ORDER, is_letter, next_call};
use arrayvec::ArrayVec;
use books::book::Book;
use sheet::sheet::Sheet;

/// A console: a sheet on a pile of article books, the bytes of an order that is not whole yet, and whether
/// the reading has stopped at an unknown letter. It has a fixed size, and every call answers on every input.
#[derive(Drop)]
pub struct Console<P> {
    sheet: Sheet<P>,
    pending: ArrayVec<u8, LONGEST_ORDER>,
    stopped: bool,
    ghost room: { length pending.items < LONGEST_ORDER },
    ghost begun: { begins_known pending.items ≡ true },
}

/// The most bytes that are printed at the end: STOP with its line's end, and the bill.
pub const ENDING: usize = 5 + PAGE;

/// What is printed at the end.
pub type Ending = ArrayVec<u8, ENDING>;

// Adds bytes to what is printed at the end.
fn append(ending: &mut Ending, bytes: &[u8])
    requires { array_vec_len ending.old + length bytes.now ≤ ENDING }
    ensures items { ending.new.items ≡ ending.old.items ++ bytes.now }
    ensures len { array_vec_len ending.new ≡ array_vec_len ending.old + length bytes.now }
{
    let Ok(()) = ending.try_extend_from_slice(bytes) else {
        unreachable!();
    };
}

// STOP, where bytes are left that begin no order.
fn stop_of(is_cut: bool) -> Ending
    ensures text { result.items ≡ (if is_cut then codes "STOP\n" else []) }
    ensures len { array_vec_len result ≤ 5 }
{
    let mut ending = ArrayVec::new();
    if is_cut {
        append(&mut ending, b"STOP\n");
    }
    ending
}

impl<P: Book> Console<P> {
    ghost use Rattle.std.specs.Prelude.{◌||◌, ◌==◌, not};
    ghost use Rattle.console.specs.Streams.{LedTo, GoesOn, PrintsSoFar, PrintsAlone, TellsStop};
    ghost use Rattle.console.specs.Streams.{EndsPrinted, EndsLightest, EndsAlone};

    /// A console before the first byte, with a new sheet on the pile.
    #[tactic(auto, using(crate::proofs::Taking::opened))]
    pub fn open(pile: P) -> Console<P>
        ensures keeps_the_pile { result.sheet.pile ≡ pile }
        ensures history_begins { LedTo (P.Book.answer pile) [] [] result }
        ensures not_stopped { result.stopped ≡ false }
    {
        Console {
            sheet: Sheet::open(pile),
            pending: ArrayVec::new(),
            stopped: false,
        }
    }

    /// Takes a byte, and gives the line that is due with it: that of the order whose last byte it is. After an
    /// unknown letter none is due any more.
    pub fn take(&mut self, byte: u8) -> Option<Line>
        ensures keeps_the_pile { self.new.sheet.pile ≡ self.old.sheet.pile }
        ensures history_goes_on_by_this_byte { GoesOn
            (P.Book.answer self.old.sheet.pile) self.old byte result self.new }
        ensures lines_of_the_orders_that_stand_whole { PrintsSoFar
            (P.Book.answer self.old.sheet.pile) self.old byte result }
        ensures no_other_lines { PrintsAlone
            (P.Book.answer self.old.sheet.pile) self.old byte result }
    {
        if self.stopped {
            return None;
        }
        if self.pending.is_empty() && !is_letter(byte) {
            self.stopped = true;
            return None;
        }
        self.pending.push(byte);
        let (call, _) = next_call(self.pending.as_slice())?;
        let line = line_of(&call, self.sheet.make(&call));
        self.pending.clear();
        line
    }

    // Whether bytes are left that begin no order.
    fn is_cut(&self) -> bool
        ensures { result ≡ (self.now.stopped || not (length self.now.pending.items == 0)) }
    {
        self.stopped || !self.pending.is_empty()
    }

    /// What is printed if the stream ends here: STOP where bytes are left that begin no order, and the bill of
    /// the chosen places.
    pub fn end(&self) -> Ending
        ensures lines_and_bill { EndsPrinted
            (P.Book.answer self.now.sheet.pile) self.now result.items }
        ensures printed_cages_are_sound_and_lightest { EndsLightest
            (P.Book.answer self.now.sheet.pile) self.now result.items }
        ensures nothing_else_is_printed { EndsAlone
            (P.Book.answer self.now.sheet.pile) self.now result.items }
    {
        let mut ending = stop_of(self.is_cut());
        let mut page = [0; PAGE];
        let written = write_bill(&mut page, &self.sheet);
        append(&mut ending, &page[..written]);
        ending
    }

    /// Whether the reading has stopped at an unknown letter: bytes that come now change nothing.
    pub fn has_stopped(&self) -> bool
        ensures as_kept { result ≡ self.now.stopped }
        ensures as_the_stream { TellsStop (P.Book.answer self.now.sheet.pile) self.now result }
    {
        self.stopped
    }
}
