use crate::reference::CARD;
use books::pile::STANDARD_PILE;
use console::{PageTooShort, answer_on_page, answer_orders};
use std::alloc::AllocError;
use std::cell::Cell;
use std::io;
use std::io::{ErrorKind, Read, Write};
use std::process::Abort;
use std::test::Fail;

// Whether the console writes these bytes on a page of 39 bytes for each byte of the stream and 2,465 more, however the stream
// is cut in two, and refuses a page with a byte less.
fn answers(rt: &(impl Abort + AllocGlobal), stream: &[u8], expected: &[u8]) -> Result<(), Fail> {
    let length = stream.len().saturating_mul(39).saturating_add(2465);
    let mut page = vec![in rt.alloc(); 0; length]?;
    for cut in 0..=stream.len() {
        let (front, back) = stream.split_at(cut);
        let written = answer_on_page(STANDARD_PILE, &[front, back], page.as_mut_slice());
        let text = page
            .as_slice()
            .get(..written.map_err(|_| Fail::new("no room"))?);
        assert!(rt; text == Some(expected), "cut at {cut}");
    }
    let mut short = vec![in rt.alloc(); 7; length.saturating_sub(1)]?;
    let refused = answer_on_page(STANDARD_PILE, &[stream], short.as_mut_slice());
    assert_eq!(rt; refused, Err(PageTooShort));
    assert!(rt; short.as_slice().iter().all(|byte| *byte == 7));
    Ok(())
}

#[test]
fn empty_stream(rt: HostRuntime) -> Result<(), Fail> {
    answers(&rt, b"", b"CAGES\nTOTAL 0 0\n")
}

#[test]
fn unknown_and_cut_orders(rt: HostRuntime) -> Result<(), Fail> {
    answers(&rt, b"R\x07", b"STOP\nCAGES\nTOTAL 0 0\n")?;
    answers(&rt, b"K\x07", b"STOP\nCAGES\nTOTAL 0 0\n")?;
    answers(&rt, b"S\x00\x05", b"STOP\nCAGES\nTOTAL 0 0\n")?;
    answers(&rt, b"E\x07\x03\x00\x00", b"STOP\nCAGES\nTOTAL 0 0\n")?;
    answers(&rt, b"S\x00\x05\x01D", b"S 5 OK\nSTOP\nCAGES\nTOTAL 0 0\n")
}

#[test]
fn refused_orders(rt: HostRuntime) -> Result<(), Fail> {
    answers(
        &rt,
        b"S\x00\x0c\x01S\x01\x06\x01S\x02\x03\x01E\x40\x00E\x07\x00E\x07\x01\x06D\x40D\x07",
        b"S 12 REFUSED 9 0\nS 6 REFUSED 9 0\nS 3 REFUSED 9 0\nE 64 REFUSED 1 0\nE 7 REFUSED 4 0\n\
          E 7 REFUSED 4 1\nD 64 REFUSED 1 0\nD 7 REFUSED 3 0\nCAGES\nTOTAL 0 0\n",
    )
}

#[test]
fn taken_place_and_empty_stock(rt: HostRuntime) -> Result<(), Fail> {
    let mut stream = Vec::new(rt.alloc());
    stream.extend_from_slice(b"E\x07\x3a")?;
    stream.extend_from_slice(&CARD)?;
    stream.extend_from_slice(b"E\x07\x00D\x07S\x00\x0b\x01D\x07S\x01\x03\x01D\x07")?;
    answers(
        &rt,
        stream.as_slice(),
        b"E 7 OK\nE 7 REFUSED 2 0\nD 7 REFUSED 10 0\nS 11 OK\nD 7 REFUSED 10 0\nS 3 OK\nD 7 NONE 4\n\
          CAGES\nTOTAL 0 0\n",
    )
}

// Whether the console answers these stock orders and a design of the reference beam with these bytes.
fn designs(rt: &(impl Abort + AllocGlobal), stock: &[u8], expected: &[u8]) -> Result<(), Fail> {
    let mut stream = Vec::new(rt.alloc());
    stream.extend_from_slice(stock)?;
    stream.extend_from_slice(b"E\x07\x3a")?;
    stream.extend_from_slice(&CARD)?;
    stream.extend_from_slice(b"D\x07")?;
    answers(rt, stream.as_slice(), expected)
}

#[test]
fn worked_designs(rt: HostRuntime) -> Result<(), Fail> {
    designs(
        &rt,
        b"S\x00\x05\x01S\x01\x03\x01",
        b"S 5 OK\nS 3 OK\nE 7 OK\nD 7 CAGE\nCAGES\n07 B 3#5 T 4#5 S #3@200 9604780\nTOTAL 1 9604780\n",
    )?;
    designs(
        &rt,
        b"S\x00\x05\x01S\x01\x04\x01",
        b"S 5 OK\nS 4 OK\nE 7 OK\nD 7 CAGE\nCAGES\n07 B 3#5 T 4#5 S #4@100 16214300\nTOTAL 1 16214300\n",
    )?;
    designs(
        &rt,
        b"S\x00\x0b\x01S\x01\x03\x01",
        b"S 11 OK\nS 3 OK\nE 7 OK\nD 7 NONE 4\nCAGES\nTOTAL 0 0\n",
    )
}

// An order that puts a beam at place 8: 300 by this height, with the dead load of the reference beam alone.
fn put_at_8(stream: &mut Vec<u8>, letter: u8, height: u16) -> Result<(), AllocError> {
    stream.extend_from_slice(&[letter, 8, 34])?;
    stream.extend_from_slice(b"\x02\x8b\x01\x2c")?;
    stream.extend_from_slice(&height.to_be_bytes())?;
    stream.extend_from_slice(b"\x00\xd2\x13\x88")?;
    stream.extend_from_slice(&CARD[10..34])
}

// The ten orders that docs/FIRST-STREAM.md writes byte by byte.
#[test]
fn ten_orders(rt: HostRuntime) -> Result<(), Fail> {
    let mut stream = Vec::new(rt.alloc());
    stream.extend_from_slice(b"S\x00\x05\x01S\x01\x03\x01E\x07\x3a")?;
    stream.extend_from_slice(&CARD)?;
    stream.extend_from_slice(b"D\x07")?;
    put_at_8(&mut stream, b'E', 249)?;
    put_at_8(&mut stream, b'E', 250)?;
    stream.extend_from_slice(b"D\x08")?;
    put_at_8(&mut stream, b'K', 450)?;
    stream.extend_from_slice(b"D\x08X\x07")?;
    answers(
        &rt,
        stream.as_slice(),
        b"S 5 OK\nS 3 OK\nE 7 OK\nD 7 CAGE\nE 8 REFUSED 8 4\nE 8 OK\nD 8 NONE 6\nK 8 OK\nD 8 CAGE\nX 7 OK\n\
          CAGES\n08 B 2#5 T 2#5 S #3@175 6718470\nTOTAL 1 6718470\n",
    )
}

// A reader that is interrupted once, gives some bytes, fails once, and is then at its end.
#[derive(Drop)]
struct BreaksOff<'a> {
    interrupted: bool,
    left: &'a [u8],
    broken: bool,
}

impl Read for BreaksOff<'_> {
    fn read(&mut self, buf: &mut [u8]) -> io::Result<usize> {
        if !self.interrupted {
            self.interrupted = true;
            return Err(io::Error::new(ErrorKind::Interrupted, "a signal came"));
        }
        if self.left.is_empty() && !self.broken {
            self.broken = true;
            return Err(io::Error::new(ErrorKind::BrokenPipe, "the line broke"));
        }
        let count = self.left.len().min(buf.len());
        let (piece, left) = self.left.split_at(count);
        buf[..count].copy_from_slice(piece);
        self.left = left;
        Ok(count)
    }
}

#[test]
fn reader_that_breaks_off(rt: HostRuntime) -> Result<(), Fail> {
    let mut reader = BreaksOff {
        interrupted: false,
        left: b"S\x00\x05\x01S\x01",
        broken: false,
    };
    let mut out = Vec::new(rt.alloc());
    let ended = answer_orders(STANDARD_PILE, &mut reader, &mut out);
    assert_eq!(rt;
        ended.map_err(|error| error.kind()),
        Err(ErrorKind::BrokenPipe)
    );
    assert_eq!(rt; out.as_slice(), b"S 5 OK\n".as_slice());
    Ok(())
}

#[test]
fn reader_at_an_unknown_letter(rt: HostRuntime) -> Result<(), Fail> {
    let mut reader = BreaksOff {
        interrupted: true,
        left: b"S\x00\x05\x01RX\x07",
        broken: false,
    };
    let mut out = Vec::new(rt.alloc());
    answer_orders(STANDARD_PILE, &mut reader, &mut out)?;
    assert!(rt; out.as_slice() == b"S 5 OK\nSTOP\nCAGES\nTOTAL 0 0\n".as_slice());
    Ok(())
}

// A sink that counts what was written and not flushed.
#[derive(Drop)]
struct Held<'a> {
    held: &'a Cell<usize>,
}

impl Write for Held<'_> {
    fn write(&mut self, buf: &[u8]) -> io::Result<usize> {
        self.held.set(self.held.get().saturating_add(buf.len()));
        Ok(buf.len())
    }

    fn flush(&mut self) -> io::Result<()> {
        self.held.set(0);
        Ok(())
    }
}

// A reader that gives a byte at a time, and none while something is held back.
#[derive(Drop)]
struct Patient<'a> {
    held: &'a Cell<usize>,
    left: &'a [u8],
}

impl Read for Patient<'_> {
    fn read(&mut self, buf: &mut [u8]) -> io::Result<usize> {
        if self.held.get() != 0 {
            return Err(io::Error::new(ErrorKind::WouldBlock, "an answer is held back"));
        }
        let Some((first, left)) = self.left.split_first() else {
            return Ok(0);
        };
        self.left = left;
        let Some(place) = buf.first_mut() else {
            return Ok(0);
        };
        *place = *first;
        Ok(1)
    }
}

#[test]
fn lines_before_the_next_read(rt: HostRuntime) -> Result<(), Fail> {
    let held = Cell::new(0);
    let mut orders = Patient {
        held: &held,
        left: b"S\x00\x05\x01E\x07\x00X\x07",
    };
    answer_orders(STANDARD_PILE, &mut orders, &mut Held { held: &held })?;
    assert_eq!(rt; held.get(), 0);
    Ok(())
}

// A sink that takes some bytes, and then fails.
#[derive(Drop)]
struct Fills {
    room: usize,
}

impl Write for Fills {
    fn write(&mut self, buf: &[u8]) -> io::Result<usize> {
        if self.room == 0 {
            return Err(io::Error::new(ErrorKind::WriteZero, "the disk is full"));
        }
        let count = self.room.min(buf.len());
        self.room -= count;
        Ok(count)
    }

    fn flush(&mut self) -> io::Result<()> {
        Ok(())
    }
}

#[test]
fn sink_that_fills(rt: HostRuntime) -> Result<(), Fail> {
    for room in 0..52 {
        let mut orders = b"S\x00\x05\x01S\x01\x03\x01X\x07R".as_slice();
        let ended = answer_orders(STANDARD_PILE, &mut orders, &mut Fills { room });
        assert_eq!(rt; ended.is_ok(), room == 51, "room {room}");
    }
    Ok(())
}
