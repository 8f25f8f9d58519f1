use crate::reading::Reading;
use crate::refusal::Refusal;

/// A call of a sheet with its arguments, which may be any numbers and any bytes. Opening a sheet is
/// none: every list of calls begins on a sheet just opened. `Sheet`'s method of the same name says
/// what each does.
#[derive(Clone, Copy)]
pub enum Call<'a> {
    Enter { place: u8, card: &'a [u8] },
    Correct { place: u8, card: &'a [u8] },
    Strike { place: u8 },
    Stock { kind: u8, mark: u8, is_in: bool },
    Design { place: u8 },
    Read { place: u8 },
    Count,
}

/// What a call that is not refused answers.
#[derive(Clone, Copy)]
pub enum Answer {
    /// To a call that only changes the sheet.
    Done,
    /// To a read, and to a design order what its place then shows.
    Shows(Reading),
    /// To a count.
    Designs(u32),
}

/// A call with what it was answered, nothing before it is made.
#[derive(Clone, Copy)]
pub struct Exchange<'a> {
    pub call: Call<'a>,
    pub answer: Option<Result<Answer, Refusal>>,
}
