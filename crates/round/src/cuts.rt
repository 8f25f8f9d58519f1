use crate::workshop::Workshop;
use console::{ENDING, LONGEST_LINE, answer_on_page, answer_orders};
use std::alloc::Global;
use std::io;
use std::io::Read;

// A reader of bytes that come in pieces: one of a length of its own, and then all of one length.
#[derive(Drop)]
struct Pieces<'a> {
    left: &'a [u8],
    next: usize,
    then: usize,
}

impl Read for Pieces<'_> {
    fn read(&mut self, buf: &mut [u8]) -> io::Result<usize> {
        let count = self.next.min(self.left.len()).min(buf.len());
        let (piece, left) = self.left.split_at(count);
        buf[..count].copy_from_slice(piece);
        self.left = left;
        self.next = if count < self.next {
            self.next - count
        } else {
            self.then
        };
        Ok(count)
    }
}

// The console's answer to a stream in one piece, by way of a page.
pub(crate) fn answer_whole(heap: Global, stream: &[u8]) -> anyhow::Result<Vec<u8>> {
    let length = stream
        .len()
        .saturating_mul(LONGEST_LINE)
        .saturating_add(ENDING);
    let mut page = vec![in heap; 0; length]?;
    let Ok(written) = answer_on_page(Workshop, &[stream], page.as_mut_slice()) else {
        anyhow::bail!("the page is too short");
    };
    page.truncate(written);
    Ok(page)
}

// The console's answer to a stream that a reader gives in pieces.
fn answer_read(heap: Global, stream: &[u8], next: usize, then: usize) -> anyhow::Result<Vec<u8>> {
    let mut pieces = Pieces {
        left: stream,
        next,
        then,
    };
    let mut out = Vec::new(heap);
    answer_orders(Workshop, &mut pieces, &mut out)?;
    Ok(out)
}

// How many ways to cut a stream into two, at every byte, leave the answer as it is.
pub(crate) fn count_in_two(heap: Global, stream: &[u8], whole: &[u8]) -> anyhow::Result<u64> {
    let mut same: u64 = 0;
    for first in 1..stream.len() {
        if answer_read(heap, stream, first, usize::MAX)?.as_slice() == whole {
            same = same.saturating_add(1);
        }
    }
    Ok(same)
}

// How many ways to cut a stream into pieces of one length leave the answer as it is.
pub(crate) fn count_in_pieces(heap: Global, stream: &[u8], whole: &[u8]) -> anyhow::Result<u64> {
    let mut same: u64 = 0;
    for size in [1, 2, 3, 7, 4096] {
        if answer_read(heap, stream, size, size)?.as_slice() == whole {
            same = same.saturating_add(1);
        }
    }
    Ok(same)
}
