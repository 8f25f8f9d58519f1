//! A stream from a reader, answered to a sink.
ghost use Rattle.std.specs.Prelude.{◌≡◌, false, OnOk};
ghost use Rattle.std.specs.Io.KnownBytes.{Appends};
ghost use Rattle.console.specs.Feeding.{Continues, ReadsAll, ReadsNoFurther};
ghost use Rattle.console.specs.Sinks.{PrintsKnown, ReadsUntilStop};
ghost use Rattle.console.specs.Streams.{text_due};

use crate::console::Console;
use crate::line::Line;
use books::book::Book;
use std::io;
use std::io::{ErrorKind, Read, Write};

// Prints the line that is due, where one is.
#[tactic(auto, using(crate::proofs::Sinks::nothing, crate::proofs::Sinks::flushed))]
fn print_line<W: Write>(due: Option<Line>, sink: &mut W) -> io::Result<()>
    ensures { OnOk result (Appends (W.contents sink.old) (W.contents sink.new) (text_due due)) }
{
    let Some(line) = due else {
        return Ok(());
    };
    sink.write_all(line.as_str().as_bytes())?;
    sink.flush()
}

// Takes a piece of a stream, and prints each line as soon as its order is whole.
fn print_piece<P: Book, W: Write>(
    console: &mut Console<P>,
    piece: &[u8],
    sink: &mut W,
) -> io::Result<()>
    ensures keeps_the_pile { console.new.sheet.pile ≡ console.old.sheet.pile }
    ensures lines_due { OnOk result
        (Continues (P.Book.answer console.old.sheet.pile)
        console.old piece.now (W.contents sink.old) console.new (W.contents sink.new)) }
{
    for byte in piece {
        print_line(console.take(*byte), sink)?;
    }
    Ok(())
}

// How many bytes are read at a time at most.
pub(crate) const PIECE: usize = 4096;

// Takes what a reader gives, up to its end or until the reading stops.
fn print_all<P: Book, R: Read, W: Write>(
    console: &mut Console<P>,
    reader: &mut R,
    sink: &mut W,
) -> io::Result<()>
    requires { console.old.stopped ≡ false }
    ensures keeps_the_pile { console.new.sheet.pile ≡ console.old.sheet.pile }
    ensures reads_no_further { OnOk result
        (ReadsNoFurther PIECE (P.Book.answer console.old.sheet.pile) (R.remaining reader.old)
        console.old (R.remaining reader.new)) }
    ensures lines_due { OnOk result
        (ReadsAll (P.Book.answer console.old.sheet.pile) (R.remaining reader.old)
        console.old (W.contents sink.old) console.new (W.contents sink.new)) }
{
    let mut piece = [0; PIECE];
    for _ in 0..u64::MAX {
        let count = match reader.read(&mut piece) {
            Ok(count) => count,
            Err(error) if error.kind() == ErrorKind::Interrupted => continue,
            Err(error) => return Err(error),
        };
        if count == 0 {
            return Ok(());
        }
        print_piece(console, &piece[..count], sink)?;
        if console.has_stopped() {
            return Ok(());
        }
    }
    Err(io::Error::new(ErrorKind::Other, "the orders never end"))
}

/// Reads a stream of orders to a sheet on a pile of article books, up to its end or to a letter that no order
/// has, and prints the line of each order as soon as it is whole, and the bill at the end. It fails where the
/// reader or the sink does, and after 2^64 - 1 reads.
pub fn answer_orders<P: Book + Drop, R: Read, W: Write>(
    pile: P,
    reader: &mut R,
    sink: &mut W,
) -> io::Result<()>
    ensures lines_and_bill { OnOk result
        (PrintsKnown (P.Book.answer pile) (R.remaining reader.old)
        (W.contents sink.old) (W.contents sink.new)) }
    ensures ends_at_an_unknown_letter { OnOk result
        (ReadsUntilStop PIECE (R.remaining reader.old) (R.remaining reader.new)) }
{
    let mut console = Console::open(pile);
    print_all(&mut console, reader, sink)?;
    sink.write_all(console.end().as_slice())?;
    sink.flush()
}
