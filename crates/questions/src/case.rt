use anyhow::{Context, Result, anyhow};
use card::reader::read_card;
use rebar::beam::Beam;
use std::alloc::Global;
use stock::stock::Stock;
use stock::stock_mark::StockMark;

// A beam, and the stock that its cage is to come from.
#[derive(Drop)]
pub(crate) struct Case {
    pub(crate) beam: Beam,
    pub(crate) stock: Stock,
}

// Sets these marks of a kind in.
fn set_in(stock: &mut Stock, kind: u8, marks: &str) -> Result<()> {
    for letter in marks.chars() {
        let mark = letter.to_digit(16).context("a mark is no digit")?;
        let known = StockMark::new(kind, mark as u8).context("a mark is unknown")?;
        stock.set(&known, true);
    }
    Ok(())
}

impl Case {
    // The case of a line.
    pub(crate) fn read(heap: Global, line: &str) -> Result<Case> {
        let mut words = line.split_whitespace();
        let mut stock = Stock::empty();
        set_in(&mut stock, 0, words.next().context("no main marks")?)?;
        set_in(&mut stock, 1, words.next().context("no tie marks")?)?;
        let bytes = hex::decode(heap, words.next().context("no card")?).map_err(|_| anyhow!(
            "the card is no hexadecimal text"
        ))?;
        let beam = read_card(bytes.as_slice()).map_err(|_| anyhow!("the card is refused"))?;
        Ok(Case { beam, stock })
    }

    // Whether every mark is in stock.
    pub(crate) fn has_all_marks(&self) -> bool {
        !self.stock.main.contains(&false) && !self.stock.tie.contains(&false)
    }
}
