use anyhow::{Context, Result, anyhow, bail};
use rebar::cage::{Bars, Cage, Ties};
use search::decision::Choice;
use sheet::reading::{Reading, Shown};
use std::str::SplitWhitespace;

// A step of a bill.
#[derive(Clone, Copy)]
pub(crate) enum Step {
    Begin,
    Line,
    Total,
}

// A step to try on a page of this length, after so many lines of the reading of a chosen place.
#[derive(Clone, Copy)]
pub(crate) struct Case {
    pub(crate) lines: u8,
    pub(crate) step: Step,
    pub(crate) page: usize,
    pub(crate) chosen: Reading,
    pub(crate) tried: Reading,
}

// The next number.
fn number(words: &mut SplitWhitespace) -> Result<u32> {
    let word = words.next().context("a number is missing")?;
    word.parse::<u32>().map_err(|_| anyhow!("a number is none"))
}

// The bars of a face, as number and mark.
fn bars(words: &mut SplitWhitespace) -> Result<Bars> {
    let counted = u8::try_from(number(words)?)?;
    let mark = u8::try_from(number(words)?)?;
    Bars::new(mark, counted).context("there are no such bars")
}

// The ties, as mark and spacing.
fn ties(words: &mut SplitWhitespace) -> Result<Ties> {
    let mark = u8::try_from(number(words)?)?;
    let spacing = u16::try_from(number(words)?)?;
    Ties::new(mark, spacing).context("there are no such ties")
}

// A cage and its steel.
fn choice(words: &mut SplitWhitespace) -> Result<Choice> {
    let cage = Cage {
        bottom: bars(words)?,
        top: bars(words)?,
        ties: ties(words)?,
    };
    let steel = number(words)?;
    if steel >= 500_000_000 {
        bail!("the steel is too much");
    }
    Ok(Choice { cage, steel })
}

// A step by its word.
fn named_step(words: &mut SplitWhitespace) -> Result<Step> {
    match words.next() {
        Some("begin") => Ok(Step::Begin),
        Some("line") => Ok(Step::Line),
        Some("total") => Ok(Step::Total),
        _ => bail!("the step is unknown"),
    }
}

// What the place of the tried line shows, by its word.
fn shown(words: &mut SplitWhitespace, choice: Choice) -> Result<Shown> {
    match words.next() {
        Some("chosen") => Ok(Shown::Chosen(choice)),
        Some("empty") => Ok(Shown::Empty),
        Some("open") => Ok(Shown::Open),
        Some("impossible") => Ok(Shown::Impossible(7)),
        _ => bail!("what the place shows is unknown"),
    }
}

impl Case {
    // The case of a line.
    pub(crate) fn read(line: &str) -> Result<Case> {
        let mut words = line.split_whitespace();
        let lines = u8::try_from(number(&mut words)?)?;
        let step = named_step(&mut words)?;
        let page = number(&mut words)? as usize;
        let place = u8::try_from(number(&mut words)?)?;
        if place >= 64 {
            bail!("there is no such place");
        }
        let choice = choice(&mut words)?;
        let shown = shown(&mut words, choice)?;
        Ok(Case {
            lines,
            step,
            page,
            chosen: Reading {
                place,
                shown: Shown::Chosen(choice),
            },
            tried: Reading { place, shown },
        })
    }
}
