// Reads beam cards from standard input, a byte with its length before each, and prints a line for each.
#![tactic(auto)]

mod line; // what is printed of a card
mod record; // the cards of a stream

use crate::line::Line;
use crate::record::next_card;
use card::reader::read_card;
use std::io::Read;

fn main(rt: HostRuntime) -> anyhow::Result<()> {
    let mut stream = Vec::new(rt.alloc());
    rt.stdin().read_to_end(&mut stream)?;
    let mut rest = stream.as_slice();
    while !rest.is_empty() {
        let Some((card, after)) = next_card(rest) else {
            println!(rt; "CUT")?;
            break;
        };
        let line = Line {
            answer: read_card(card),
        };
        println!(rt; "{line}")?;
        rest = after;
    }
    Ok(())
}
