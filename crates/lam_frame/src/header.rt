//! Header parts of frames: where they end, and the body length that they give.

ghost use Rattle.std.specs.Prelude.{◌≡◌, ◌≤◌, ◌↔◌, IfSome, IsSome, codes, length, map, true};
ghost use Rattle.std.specs.Char.{is_ascii_digit, to_ascii_lowercase};
ghost use Rattle.std.specs.List.{after_first, before_first, list_all, position, prefix_len};
ghost use Rattle.std.specs.Str.{bytes_eq};
ghost use Rattle.std.specs.Str.Parse.{digits_value};
ghost use Rattle.lam_frame.specs.Header.{has_colon, is_blank_byte, is_colon, is_length, is_header_byte, length_in, trim_back, trim_front};
ghost use Rattle.lam_frame.specs.inner.Steps.{IsStart};
ghost use Rattle.lam_frame.specs.inner.Scan.{IsFirstLine, IsScan, with_length_of, with_line_of};

use crate::fault::FrameFault;

/// The maximum length of a header part in bytes.
const HEADER_LIMIT: usize = 4096;

/// The maximum length of a body in bytes.
const BODY_LIMIT: u64 = 67_108_864;

/// A number with more digits could exceed 2^64.
const DIGITS_LIMIT: usize = 19;

/// What an input begins with.
pub(crate) enum Start {
    /// A header part of `header` bytes, for a body of `size` bytes.
    Whole { header: usize, size: usize },
    /// An incomplete header part.
    Open,
    Faulty(FrameFault),
}

/// The result of scanning for lines up to an empty line.
enum Header {
    /// The lines end after `length` bytes, and give `body` as the length of the body.
    Whole {
        length: usize,
        body: Result<u64, FrameFault>,
    },
    Unfinished,
    Spoiled,
}

/// What the rest of a header part begins with.
enum Line<'a> {
    /// A line, which may be empty, and the bytes after its line ending.
    Whole(&'a [u8], &'a [u8]),
    Unfinished,
    Spoiled,
}

/// Determines what an input begins with, from at most its first 4,096 bytes.
pub(crate) fn start_of(bytes: &[u8]) -> Start
    ensures { IsStart bytes.now result }
{
    let window = &bytes[..bytes.len().min(HEADER_LIMIT)];
    match scan_header(window) {
        Header::Spoiled => Start::Faulty(FrameFault::BadHeader),
        Header::Unfinished => {
            if window.len() == HEADER_LIMIT {
                return Start::Faulty(FrameFault::BadHeader);
            }
            Start::Open
        }
        Header::Whole { length, body } => match body {
            Ok(size) => Start::Whole {
                header: length,
                size: size as usize,
            },
            Err(fault) => Start::Faulty(fault),
        },
    }
}

/// Scans the header part at the start of `bytes`, of any length.
fn scan_header(bytes: &[u8]) -> Header
    ensures { IsScan bytes.now result }
{
    let mut rest = bytes;
    let mut body = Err(FrameFault::NoLength);
    loop {
        let (line, after) = match first_line(rest) {
            Line::Whole(line, after) => (line, after),
            Line::Unfinished => return Header::Unfinished,
            Line::Spoiled => return Header::Spoiled,
        };
        if line.is_empty() {
            let length = bytes.len() - after.len();
            return Header::Whole { length, body };
        }
        body = with_line(body, line);
        rest = after;
    }
}

#[tactic(auto, using(crate::proofs::Lines::misplaced))]
fn first_line(bytes: &[u8]) -> Line<'_>
    ensures { IsFirstLine bytes.now result }
{
    let (line, rest) = bytes.split_at(plain_length(bytes));
    if rest.is_empty() {
        return Line::Unfinished;
    }
    if rest[0] != b'\r' {
        return Line::Spoiled;
    }
    if rest.len() == 1 {
        return Line::Unfinished;
    }
    if rest[1] != b'\n' {
        return Line::Spoiled;
    }
    Line::Whole(line, &rest[2..])
}

/// The number of bytes before the first that is not allowed in a line.
fn plain_length(bytes: &[u8]) -> usize
    ensures length { result ≡ prefix_len is_header_byte bytes.now }
    ensures within { result ≤ length bytes.now }
{
    bytes.iter().take_while(|byte| is_plain(**byte)).count()
}

fn is_plain(byte: u8) -> bool
    ensures { result ≡ is_header_byte byte }
{
    byte.is_ascii() && !matches!(byte, b'\r' | b'\n')
}

/// Adds a line to the result `so_far` of the lines before it.
fn with_line(so_far: Result<u64, FrameFault>, line: &[u8]) -> Result<u64, FrameFault>
    ensures { result ≡ with_line_of so_far line.now }
{
    let Some((name, value)) = field(line) else {
        return Err(FrameFault::BadHeader);
    };
    if !is_length_name(name) {
        return so_far;
    }
    with_length(so_far, value)
}

/// Splits a line at its first colon into a name and a value.
#[tactic(auto, using(crate::proofs::Lines::colons))]
fn field(line: &[u8]) -> Option<(&[u8], &[u8])>
    ensures colon { IsSome result ↔ (has_colon line.now ≡ true) }
    ensures name { IfSome result (λ f. f.0.now ≡ before_first is_colon line.now) }
    ensures value { IfSome result (λ f. f.1.now ≡ after_first is_colon line.now) }
{
    let colon = first_colon(line)?;
    Some((&line[..colon], &line[colon + 1..]))
}

fn first_colon(line: &[u8]) -> Option<usize>
    ensures { result ≡ position is_colon line.now }
{
    line.iter().position(|byte| *byte == b':')
}

fn is_length_name(name: &[u8]) -> bool
    ensures { result ≡ bytes_eq (map to_ascii_lowercase name.now) (codes "content-length") }
{
    name.eq_ignore_ascii_case(b"Content-Length")
}

/// Adds the value of a `Content-Length` line to the result `so_far`.
fn with_length(so_far: Result<u64, FrameFault>, value: &[u8]) -> Result<u64, FrameFault>
    ensures { result ≡ with_length_of so_far value.now }
{
    match so_far {
        Err(FrameFault::NoLength) => length_of(without_blanks(value)),
        Err(FrameFault::BadHeader) => Err(FrameFault::BadHeader),
        _ => Err(FrameFault::BadLength),
    }
}

fn without_blanks(value: &[u8]) -> &[u8]
    ensures { result.now ≡ trim_back (trim_front value.now) }
{
    without_blanks_behind(without_blanks_in_front(value))
}

fn without_blanks_in_front(value: &[u8]) -> &[u8]
    ensures { result.now ≡ trim_front value.now }
{
    let mut rest = value;
    while let Some((first, after)) = rest.split_first() {
        if !is_blank(*first) {
            return rest;
        }
        rest = after;
    }
    rest
}

#[tactic(auto, using(crate::proofs::Lines::blanks))]
fn without_blanks_behind(value: &[u8]) -> &[u8]
    ensures { result.now ≡ trim_back value.now }
{
    let mut rest = value;
    while let Some((last, before)) = rest.split_last() {
        if !is_blank(*last) {
            return rest;
        }
        rest = before;
    }
    rest
}

fn is_blank(byte: u8) -> bool
    ensures { result ≡ is_blank_byte byte }
{
    matches!(byte, b' ' | b'\t')
}

fn length_of(value: &[u8]) -> Result<u64, FrameFault>
    ensures { result ≡ length_in value.now }
{
    if !is_number(value) {
        return Err(FrameFault::BadLength);
    }
    let length = number(value);
    if length > BODY_LIMIT {
        return Err(FrameFault::TooLong);
    }
    Ok(length)
}

/// Whether the value consists of at least one digit, and too few to exceed 2^64.
fn is_number(value: &[u8]) -> bool
    ensures { result ≡ is_length value.now }
{
    if value.is_empty() || value.len() > DIGITS_LIMIT {
        return false;
    }
    are_digits(value)
}

fn are_digits(value: &[u8]) -> bool
    ensures { result ≡ list_all is_ascii_digit value.now }
{
    value.iter().all(|byte| byte.is_ascii_digit())
}

#[tactic(auto, using(crate::proofs::Lines::numerals))]
fn number(digits: &[u8]) -> u64
    requires { is_length digits.now ≡ true }
    ensures { result ≡ digits_value 10 digits.now }
{
    let mut number = 0;
    for digit in digits {
        number = 10 * number + u64::from(*digit - b'0');
    }
    number
}
