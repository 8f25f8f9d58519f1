//! A stream that is there whole, in pieces, answered on a page.
ghost use Rattle.std.specs.Prelude.{◌≡◌, ◌+◌, ◌*◌, ◌≤◌, ◌<◌, ◌++◌, ◌↔◌, length, take, drop};
ghost use Rattle.std.specs.Prelude.{[], IsTrue, IsErr, IfOk, OnErr, Some};
ghost use Rattle.bill.specs.Text.{put};
ghost use Rattle.console.specs.Printed.{IsPrinted, ShowsLightest, IsOnlyText, IsTextOfEveryCut};
ghost use Rattle.console.specs.Streams.{text_due};
ghost use Rattle.console.specs.Pages.{joined, OnPage};
ghost use Rattle.console.specs.Feeding.{Continues};
ghost use Rattle.console.specs.Sinks.{Prints};

use crate::console::{Console, ENDING};
use crate::line::{LONGEST_LINE, Line};
use books::book::Book;

/// The page is too short for every answer that a stream of so many bytes can get: it wants `LONGEST_LINE` bytes for
/// each of them, and `ENDING` more.
#[derive(Clone, Copy, Debug, PartialEq, Eq)]
pub struct PageTooShort;

// Whether a page of this length has room for every answer to the pieces.
fn has_room(page: usize, pieces: &[&[u8]]) -> bool
    ensures { IsTrue result ↔ (LONGEST_LINE * length (joined pieces.now) + ENDING ≤ page) }
{
    let Some(lines) = page.checked_sub(ENDING) else {
        return false;
    };
    let mut left = lines / LONGEST_LINE;
    for piece in pieces {
        let Some(less) = left.checked_sub(piece.len()) else {
            return false;
        };
        left = less;
    }
    true
}

// Puts more bytes on a page after the first `written`.
fn put(page: &mut [u8], written: usize, more: &[u8])
    requires { written + length more.now ≤ length page.old }
    ensures { page.new ≡ put page.old written more.now }
{
    let end = written + more.len();
    page[written..end].copy_from_slice(more);
}

// The same, and says how many bytes there are then.
fn append(page: &mut [u8], written: usize, more: &[u8]) -> usize
    requires { written + length more.now ≤ length page.old }
    ensures text { take result page.new ≡ take written page.old ++ more.now }
    ensures rest { drop result page.new ≡ drop result page.old }
    ensures count { result ≡ written + length more.now }
{
    put(page, written, more);
    written + more.len()
}

// Puts the line that is due on a page, where one is.
fn append_line(page: &mut [u8], written: usize, due: Option<Line>) -> usize
    requires { written + LONGEST_LINE ≤ length page.old }
    ensures text { take result page.new ≡ take written page.old ++ text_due due }
    ensures rest { drop result page.new ≡ drop result page.old }
    ensures at_most_a_line { (written ≤ result) × (result ≤ written + LONGEST_LINE) }
{
    match due {
        Some(line) => append(page, written, line.as_str().as_bytes()),
        None => written,
    }
}

// Takes a piece of a stream, and puts the lines that are due on a page.
fn answer_piece<P: Book>(
    page: &mut [u8],
    written: usize,
    console: &mut Console<P>,
    piece: &[u8],
) -> usize
    requires { written + LONGEST_LINE * length piece.now ≤ length page.old }
    ensures keeps_the_pile { console.new.sheet.pile ≡ console.old.sheet.pile }
    ensures lines_due { Continues (P.Book.answer console.old.sheet.pile)
        console.old piece.now (Some (take written page.old))
        console.new (Some (take result page.new)) }
    ensures rest { drop result page.new ≡ drop result page.old }
    ensures at_most_a_line_for_each_byte { (written ≤ result)
        × (result ≤ written + LONGEST_LINE * length piece.now) }
{
    let mut end = written;
    for byte in piece {
        end = append_line(page, end, console.take(*byte));
    }
    end
}

// Puts the lines and the bill of a stream on a page that has room for them. Says how many bytes they are.
fn answer_pieces<P: Book + Drop>(pile: P, pieces: &[&[u8]], page: &mut [u8]) -> usize
    requires { LONGEST_LINE * length (joined pieces.now) + ENDING ≤ length page.old }
    ensures prints { Prints (P.Book.answer pile) (joined pieces.now)
        (Some []) (Some (take result page.new)) }
    ensures rest { drop result page.new ≡ drop result page.old }
    ensures within { result ≤ length page.old }
{
    let mut console = Console::open(pile);
    let mut written = 0;
    for piece in pieces {
        written = answer_piece(page, written, &mut console, piece);
    }
    append(page, written, console.end().as_slice())
}

/// Answers a stream that is there whole, in one piece or in several, on a page: the line of each order, and
/// the bill. Says how many bytes of the page they are. A page that is too short is refused, and stays as it
/// was.
#[tactic(auto, using(crate::proofs::Pages::lightest))]
pub fn answer_on_page<P: Book + Drop>(
    pile: P,
    pieces: &[&[u8]],
    page: &mut [u8],
) -> Result<usize, PageTooShort>
    ensures refused_exactly_where_too_short { IsErr result
        ↔ (length page.old < LONGEST_LINE * length (joined pieces.now) + ENDING) }
    ensures unchanged_where_refused { OnErr result (page.new ≡ page.old) }
    ensures lines_and_bill { OnPage result page.new
        (IsPrinted (P.Book.answer pile) (joined pieces.now)) }
    ensures printed_cages_are_sound_and_lightest { OnPage result page.new
        (ShowsLightest (P.Book.answer pile) (joined pieces.now)) }
    ensures nothing_else_is_printed { OnPage result page.new
        (IsOnlyText (P.Book.answer pile) (joined pieces.now)) }
    ensures pieces_do_not_matter { OnPage result page.new
        (IsTextOfEveryCut (P.Book.answer pile) (joined pieces.now)) }
    ensures rest_of_the_page_unchanged { IfOk result
        (λ n. (n ≤ length page.old) × (drop n page.new ≡ drop n page.old)) }
{
    if !has_room(page.len(), pieces) {
        return Err(PageTooShort);
    }
    Ok(answer_pieces(pile, pieces, page))
}
