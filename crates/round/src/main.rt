// Reads streams of orders from standard input, two bytes with its length before each, and prints the console's answer to each:
// on a book of a workshop. At the end it prints in how many ways of cutting the streams into pieces the answers were the same.
#![tactic(auto)]

#[cfg(test)]
mod calls; // the answers to a list of calls of all kinds
mod cuts; // a stream in pieces
mod record; // the streams of the input
mod workshop; // the book of the workshop

use crate::cuts::{answer_whole, count_in_pieces, count_in_two};
use crate::record::next_stream;
use std::io::{Read, Write};

fn main(rt: HostRuntime) -> anyhow::Result<()> {
    let heap = rt.alloc();
    let mut bytes = Vec::new(heap);
    rt.stdin().read_to_end(&mut bytes)?;
    let mut rest = bytes.as_slice();
    let mut same: u64 = 0;
    while let Some((stream, after)) = next_stream(rest) {
        let whole = answer_whole(heap, stream)?;
        rt.stdout().write_all(whole.as_slice())?;
        same = same.saturating_add(count_in_two(heap, stream, whole.as_slice())?);
        same = same.saturating_add(count_in_pieces(heap, stream, whole.as_slice())?);
        rest = after;
    }
    println!(rt; "CUTS {same}")?;
    Ok(())
}
