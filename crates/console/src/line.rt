//! The line of an order.
ghost use Rattle.std.specs.Prelude.{◌≡◌, ◌+◌, ◌<◌, ◌≤◌, ◌++◌, Some};
ghost use Rattle.arrayvec.specs.ArrayString.{array_string_len};
ghost use Rattle.console.specs.Lines.{outcome_text, line_text, outcome_of, outcome_shown, head_of, text_of};
ghost use Rattle.console.specs.Streams.{text_due};

use arrayvec::ArrayString;
use itoa::{Buffer, Integer};
use sheet::call::{Answer, Call};
use sheet::reading::Shown;
use sheet::refusal::Refusal;

/// The most bytes of a line: letter, place or mark, REFUSED, its number, a byte place of 20 digits.
pub const LONGEST_LINE: usize = 39;

/// The line of an order: its letter, its place or mark, and what became of it.
pub type Line = ArrayString<LONGEST_LINE>;

// What became of an order that was not refused.
#[derive(Clone, Copy, Debug, PartialEq, Eq)]
pub(crate) enum Outcome {
    Done,
    Cage,
    NoCage(u8),
}

// What became of an order, by what its place then shows.
impl From<Shown> for Outcome {
    ghost from_gives = { λ shown outcome. outcome ≡ outcome_shown shown };

    fn from(shown: Shown) -> Outcome {
        match shown {
            Shown::Chosen(_) => Outcome::Cage,
            Shown::Impossible(article) => Outcome::NoCage(article),
            Shown::Empty | Shown::Open => Outcome::Done,
        }
    }
}

// The letter of the order that spells a call, and the place or the mark that its line shows; none where no order spells it.
fn head_of(call: &Call) -> Option<(u8, u8)>
    ensures { result ≡ head_of call.now }
{
    match *call {
        Call::Enter { place, .. } => Some((b'E', place)),
        Call::Correct { place, .. } => Some((b'K', place)),
        Call::Strike { place } => Some((b'X', place)),
        Call::Stock { mark, .. } => Some((b'S', mark)),
        Call::Design { place } => Some((b'D', place)),
        Call::Read { .. } | Call::Count => None,
    }
}

// What became of an order, by what its call was answered.
fn outcome_of(answer: Result<Answer, Refusal>) -> Result<Outcome, Refusal>
    ensures { result ≡ outcome_of answer }
{
    Ok(match answer? {
        Answer::Shows(reading) => reading.shown.into(),
        Answer::Done | Answer::Designs(_) => Outcome::Done,
    })
}

// Adds a number, with no leading zero.
fn push_number<I: Integer>(line: &mut Line, n: I)
    requires { array_string_len line.old + I.MAX_STR_LEN ≤ LONGEST_LINE }
    ensures text { line.new.bytes ≡ line.old.bytes ++ I.text n }
    ensures len { array_string_len line.new ≤ array_string_len line.old + I.MAX_STR_LEN }
{
    let mut digits = Buffer::new();
    line.push_str(digits.format(n));
}

// Adds what became of an order, up to the line's end.
fn push_outcome(line: &mut Line, outcome: Result<Outcome, Refusal>)
    requires { array_string_len line.old + 33 ≤ LONGEST_LINE }
    ensures { line.new.bytes ≡ line.old.bytes ++ outcome_text outcome }
{
    match outcome {
        Ok(Outcome::Done) => line.push_str("OK\n"),
        Ok(Outcome::Cage) => line.push_str("CAGE\n"),
        Ok(Outcome::NoCage(article)) => {
            line.push_str("NONE ");
            push_number(line, article);
            line.push_str("\n");
        }
        Err(refusal) => {
            line.push_str("REFUSED ");
            push_number(line, u8::from(refusal));
            line.push_str(" ");
            push_number(line, refusal.byte_place());
            line.push_str("\n");
        }
    }
}

// A line. Not by `write!`, whose contract does not say that the text fits.
fn line_by(letter: u8, number: u8, outcome: Result<Outcome, Refusal>) -> Line
    requires { letter < 128 }
    ensures { result.bytes ≡ line_text letter number outcome }
{
    let mut line = Line::new();
    line.push(char::from(letter));
    line.push_str(" ");
    push_number(&mut line, number);
    line.push_str(" ");
    push_outcome(&mut line, outcome);
    line
}

// The line of a call that was made, where an order spells it.
pub(crate) fn line_of(call: &Call, answer: Result<Answer, Refusal>) -> Option<Line>
    ensures { text_due result ≡ text_of (record { call = call.now; answer = Some answer }) }
{
    let (letter, number) = head_of(call)?;
    Some(line_by(letter, number, outcome_of(answer)))
}
