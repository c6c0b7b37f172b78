//! Frames, their errors, and devices with short reads and writes.

ghost use Rattle.std.specs.Prelude.{◌-◌, ◌^◌, ◌<◌, ⊤};

use crate::written::{check_rows, equal};
use lam_frame::{
    BytesOut, DeviceFault, FailAt, FrameFault, FrameReader, FromRead, Sink, Source, ToWrite,
    write_frame,
};
use std::alloc::{AllocError, Global};
use std::io;
use std::io::{ErrorKind, Read, Write};

/// Gives at most `step` bytes at a time. Its contract is only about counts.
#[derive(Drop)]
struct Trickle<'a> {
    rest: &'a [u8],
    step: usize,
}

impl Source for Trickle<'_> {
    ghost failed = { λ _. 0 };

    ghost gave = { λ _ _ _. ⊤ };

    fn failures(&self) -> u64 {
        0
    }

    fn pull(&mut self, into: &mut [u8]) -> Result<usize, DeviceFault> {
        let count = self.step.min(into.len()).min(self.rest.len());
        let (piece, rest) = self.rest.split_at(count);
        into[..count].copy_from_slice(piece);
        self.rest = rest;
        Ok(count)
    }
}

/// What a reader returns: a body and a `|`, a `.` at a clean end, or the code of an error and a `;`.
fn push_answer(
    seen: &mut String,
    alloc: Global,
    answer: Result<Option<Vec<u8>>, FrameFault>,
) -> Result<(), AllocError> {
    match answer {
        Ok(Some(body)) => write!(seen, "{}|", String::from_utf8_lossy(alloc, &body)?),
        Ok(None) => seen.push_str("."),
        Err(fault) => write!(seen, "{fault};"),
    }
}

/// The first three results of reading from a source.
fn answers<S: Source>(alloc: Global, source: &mut S) -> Result<String, AllocError>
    requires { S.failed source.old < 2 ^ 64 - 3 }
{
    let mut reader = FrameReader::new(alloc)?;
    let mut seen = String::new(alloc);
    push_answer(&mut seen, alloc, reader.next(source))?;
    push_answer(&mut seen, alloc, reader.next(source))?;
    push_answer(&mut seen, alloc, reader.next(source))?;
    Ok(seen)
}

/// The results for an input that comes in pieces of `step` bytes.
fn trickled(alloc: Global, input: &[u8], step: usize) -> Result<String, AllocError> {
    answers(alloc, &mut Trickle { rest: input, step })
}

fn by_bytes(alloc: Global, input: &[u8]) -> Result<String, AllocError> {
    trickled(alloc, input, 1)
}

fn by_sevens(alloc: Global, input: &[u8]) -> Result<String, AllocError> {
    trickled(alloc, input, 7)
}

/// The results if the first one is that error.
const NO_LENGTH: &str = "F1 NoLength;F9 Spent;F9 Spent;";

const BAD_LENGTH: &str = "F2 BadLength;F9 Spent;F9 Spent;";

const BAD_HEADER: &str = "F4 BadHeader;F9 Spent;F9 Spent;";

const TRUNCATED: &str = "F5 Truncated;F9 Spent;F9 Spent;";

/// An input, and the first three results.
type Row = (&'static [u8], &'static str);

static INPUTS: [Row; 24] = [
    (b"", "..."),
    (b"Content-Length: 2\r\n\r\n{}", "{}|.."),
    (b"content-length: \t2 \r\n\r\n{}", "{}|.."),
    (b"X: y\r\nCONTENT-LENGTH:007\r\n\r\n1234567", "1234567|.."),
    (
        b"Content-Length: 0\r\n\r\nContent-Length: 1\r\n\r\nx",
        "|x|.",
    ),
    (
        b"Content-Length: 1\r\n\r\nxContent-",
        "x|F5 Truncated;F9 Spent;",
    ),
    (b"Content-Length: 10\r\n\r\n123456789", TRUNCATED),
    (b"Content-Length: 67108864\r\n\r\n123", TRUNCATED),
    (
        b"Content-Length: 67108865\r\n\r\n",
        "F3 TooLong;F9 Spent;F9 Spent;",
    ),
    (
        b"Content-Length: 2\r\nContent-Length: 2\r\n\r\n{}",
        BAD_LENGTH,
    ),
    (b"Content-Length: +5\r\n\r\n", BAD_LENGTH),
    (b"Content-Length: 5 5\r\n\r\n", BAD_LENGTH),
    (b"Content-Length:\r\n\r\n", BAD_LENGTH),
    (b"Content-Length: 00000000000000000005\r\n\r\n", BAD_LENGTH),
    (b"Content-Length: \x0b5\r\n\r\n", BAD_LENGTH),
    (b"Content-Length : 5\r\n\r\n", NO_LENGTH),
    (b"\r\n", NO_LENGTH),
    (b"Content-Length: 2\r\nno colon\r\n\r\n{}", BAD_HEADER),
    (b"no colon\r\n\x80", BAD_HEADER),
    (b"no colon\r\n", TRUNCATED),
    (b"Content-Length: 2\r", TRUNCATED),
    (b"Content-Length: 2\r\r\n", BAD_HEADER),
    (b"Content-Length: 2\n", BAD_HEADER),
    (b"Content-Length: \xc3\xa9\r\n", BAD_HEADER),
];

#[test]
fn answers_do_not_depend_on_the_pieces_and_nothing_follows_an_end_or_an_error(
    rt: HostRuntime,
) -> Result<(), AllocError> {
    check_rows(&rt, rt.alloc(), by_bytes, &INPUTS)?;
    check_rows(&rt, rt.alloc(), by_sevens, &INPUTS)
}

/// The results for a frame whose header part has 26 bytes plus this many letters, in pieces of `step` bytes.
fn long_header(alloc: Global, (letters, step): (usize, usize)) -> Result<String, AllocError> {
    let value = "a".repeat(alloc, letters)?;
    let input = format!(in alloc; "Content-Length: 2\r\nX: {value}\r\n\r\n{{}}")?;
    trickled(alloc, input.as_bytes(), step)
}

static LONG_HEADERS: [((usize, usize), &str); 6] = [
    ((4_070, 1), "{}|.."),
    ((4_070, 4_096), "{}|.."),
    ((4_070, 65_536), "{}|.."),
    ((4_071, 1), BAD_HEADER),
    ((4_071, 4_096), BAD_HEADER),
    ((4_071, 65_536), BAD_HEADER),
];

#[test]
fn a_header_part_has_at_most_4096_bytes(rt: HostRuntime) -> Result<(), AllocError> {
    check_rows(&rt, rt.alloc(), long_header, &LONG_HEADERS)
}

/// Reads some bytes, is interrupted, reads some more, and fails.
#[derive(Drop)]
struct Breaks<'a> {
    pieces: [&'a [u8]; 2],
    calls: u8,
}

impl Read for Breaks<'_> {
    fn read(&mut self, into: &mut [u8]) -> io::Result<usize> {
        let call = self.calls;
        if call == 1 {
            self.calls = 2;
            return Err(io::Error::from(ErrorKind::Interrupted));
        }
        if call > 2 {
            return Err(io::Error::from(ErrorKind::BrokenPipe));
        }
        self.calls = call + 1;
        let piece = self.pieces[if call == 0 { 0 } else { 1 }];
        let count = piece.len().min(into.len());
        into[..count].copy_from_slice(&piece[..count]);
        Ok(count)
    }
}

#[test]
fn an_interrupted_read_is_tried_again_and_a_failed_one_is_reported(
    rt: HostRuntime,
) -> Result<(), AllocError> {
    let mut source = FromRead::new(Breaks {
        pieces: [b"Content-Length: 1\r\n\r", b"\nxContent-Length: 1\r\n\r\n"],
        calls: 0,
    });
    let seen = answers(rt.alloc(), &mut source)?;
    equal(&rt, &seen, "x|F6 Device;F9 Spent;");
    assert_eq!(rt; source.failures(), 1);
    Ok(())
}

/// Writes three bytes at a time, is interrupted once, and counts flushes up to the second one; it accepts at most `room` bytes.
#[derive(Drop)]
struct Slow {
    bytes: Vec<u8>,
    room: usize,
    interrupted: bool,
    flushes: u8,
}

impl Write for Slow {
    fn write(&mut self, from: &[u8]) -> io::Result<usize> {
        if !self.interrupted {
            self.interrupted = true;
            return Err(io::Error::from(ErrorKind::Interrupted));
        }
        let left = self.room - self.room.min(self.bytes.len());
        let count = from.len().min(3).min(left);
        self.bytes.extend_from_slice(&from[..count])?;
        Ok(count)
    }

    fn flush(&mut self) -> io::Result<()> {
        if self.flushes > 1 {
            return Err(io::Error::from(ErrorKind::BrokenPipe));
        }
        self.flushes += 1;
        Ok(())
    }
}

/// Writes a frame to a writer with this much room, which was flushed `before` times: what the writer then has, its number of
/// flushes, the number of failures of the sink, and the result.
fn slowly(alloc: Global, (room, before): (usize, u8)) -> Result<String, AllocError> {
    let mut writer = Slow {
        bytes: Vec::new(alloc),
        room,
        interrupted: false,
        flushes: before,
    };
    let mut sink = ToWrite::new(&mut writer);
    let written = write_frame(&mut sink, b"12345");
    let failures = sink.failures();
    let flushes = writer.flushes;
    let bytes = String::from_utf8_lossy(alloc, &writer.bytes)?;
    format!(in alloc; "{bytes} {flushes} {failures} {written:?}")
}

static SLOW: [((usize, u8), &str); 3] = [
    ((100, 0), "Content-Length: 5\r\n\r\n12345 1 0 Ok(())"),
    ((24, 0), "Content-Length: 5\r\n\r\n123 0 1 Err(Device)"),
    ((100, 2), "Content-Length: 5\r\n\r\n12345 2 1 Err(Device)"),
];

#[test]
fn a_slow_writer_gets_all_and_a_full_or_broken_one_is_reported(
    rt: HostRuntime,
) -> Result<(), AllocError> {
    check_rows(&rt, rt.alloc(), slowly, &SLOW)
}

/// The results for a frame if this pull fails, and the number of failed pulls.
fn answers_with_a_failed_pull(alloc: Global, call: u64) -> Result<String, AllocError> {
    let rest = b"Content-Length: 1\r\n\r\nx".as_slice();
    let mut source = FailAt::new(Trickle { rest, step: 20 }, call);
    let seen = answers(alloc, &mut source)?;
    format!(in alloc; "{seen} {}", source.failures())
}

static FAILED_PULLS: [(u64, &str); 5] = [
    (0, "x|.. 0"),
    (1, "F6 Device;F9 Spent;F9 Spent; 1"),
    (2, "F6 Device;F9 Spent;F9 Spent; 1"),
    (3, "x|F6 Device;F9 Spent; 1"),
    (4, "x|.. 0"),
];

#[test]
fn one_pull_fails_and_no_other(rt: HostRuntime) -> Result<(), AllocError> {
    check_rows(&rt, rt.alloc(), answers_with_a_failed_pull, &FAILED_PULLS)
}

/// Writes two frames to a sink in which this call fails: the results, the number of failed calls, and what was accepted.
fn written_with_a_failed_call(alloc: Global, call: u64) -> Result<String, AllocError> {
    let mut sink = FailAt::new(BytesOut::new(alloc), call);
    let first = write_frame(&mut sink, b"1");
    let second = write_frame(&mut sink, b"2");
    let failures = sink.failures();
    let taken = String::from_utf8_lossy(alloc, sink.inner().bytes())?;
    format!(in alloc; "{first:?} {second:?} {failures} {taken}")
}

static FAILED_CALLS: [(u64, &str); 8] = [
    (
        0,
        "Ok(()) Ok(()) 0 Content-Length: 1\r\n\r\n1Content-Length: 1\r\n\r\n2",
    ),
    (1, "Err(Device) Ok(()) 1 Content-Length: 1\r\n\r\n2"),
    (
        2,
        "Err(Device) Ok(()) 1 Content-Length: 1\r\n\r\nContent-Length: 1\r\n\r\n2",
    ),
    (
        3,
        "Err(Device) Ok(()) 1 Content-Length: 1\r\n\r\n1Content-Length: 1\r\n\r\n2",
    ),
    (4, "Ok(()) Err(Device) 1 Content-Length: 1\r\n\r\n1"),
    (
        5,
        "Ok(()) Err(Device) 1 Content-Length: 1\r\n\r\n1Content-Length: 1\r\n\r\n",
    ),
    (
        6,
        "Ok(()) Err(Device) 1 Content-Length: 1\r\n\r\n1Content-Length: 1\r\n\r\n2",
    ),
    (
        7,
        "Ok(()) Ok(()) 0 Content-Length: 1\r\n\r\n1Content-Length: 1\r\n\r\n2",
    ),
];

#[test]
fn one_push_or_flush_fails_and_no_other(rt: HostRuntime) -> Result<(), AllocError> {
    check_rows(&rt, rt.alloc(), written_with_a_failed_call, &FAILED_CALLS)
}

fn printed(alloc: Global, fault: FrameFault) -> Result<String, AllocError> {
    fault.to_string(alloc)
}

static CODES: [(FrameFault, &str); 9] = [
    (FrameFault::NoLength, "F1 NoLength"),
    (FrameFault::BadLength, "F2 BadLength"),
    (FrameFault::TooLong, "F3 TooLong"),
    (FrameFault::BadHeader, "F4 BadHeader"),
    (FrameFault::Truncated, "F5 Truncated"),
    (FrameFault::Device, "F6 Device"),
    (FrameFault::Memory, "F7 Memory"),
    (FrameFault::TooManyTurns, "F8 TooManyTurns"),
    (FrameFault::Spent, "F9 Spent"),
];

#[test]
fn a_fault_prints_its_code_and_its_name(rt: HostRuntime) -> Result<(), AllocError> {
    check_rows(&rt, rt.alloc(), printed, &CODES)
}
