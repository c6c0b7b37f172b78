//! The line index of a document.
ghost use Rattle.std.specs.Prelude.{◌≡◌, ◌+◌, ◌-◌, ◌<◌, ◌≤◌, ◌++◌, length, take, drop, slice_index, nat_lt, ◌==◌, ◌&&◌, if◌then◌else◌, IfOk, IsTrue};
ghost use Rattle.std.specs.List.{prefix_len};
ghost use Rattle.std.specs.Str.{IsAscii};
ghost use Rattle.lam_text.specs.Units.{bytes_within, units_in};
ghost use Rattle.lam_text.specs.Lines.{begins_with_lf};
ghost use Rattle.lam_text.specs.inner.Index.{all_ascii, index_of};
ghost use Rattle.lam_text.specs.inner.Rows.{line_start, line_content};
ghost use Rattle.lam_text.specs.inner.Search.{IsIndex, ends, marks_from, lengthened, starts_by};

use crate::units::{Encoding, bytes_within, units_in};
use memchr::memchr2;
use std::alloc::{AllocError, Global};

/// A line: the byte offset of its start, and whether its content is all ASCII.
#[derive(Clone, Copy, Debug, PartialEq, Eq)]
pub(crate) struct Mark {
    pub(crate) start: usize,
    pub(crate) ascii: bool,
}

fn is_ascii(bytes: &[u8]) -> bool
    ensures { result ≡ all_ascii bytes.now }
{
    bytes.is_ascii()
}

/// Whether the bytes from `from` up to `to` are all ASCII.
pub(crate) fn is_ascii_between(text: &[u8], from: usize, to: usize) -> bool
    requires ordered { from ≤ to }
    requires within { to ≤ length text.now }
    ensures { result ≡ all_ascii (take (to - from) (drop from text.now)) }
{
    is_ascii(&text[from..to])
}

/// Whether the byte at `at` ends a line. A CR that an LF follows does not.
fn ends_line(text: &[u8], at: usize) -> bool
    requires { at < length text.now }
    ensures { result ≡ ends (slice_index text.now at) (begins_with_lf (drop (at + 1) text.now)) }
{
    if text[at] == b'\n' {
        return true;
    }
    if text[at] != b'\r' {
        return false;
    }
    if at + 1 == text.len() {
        return true;
    }
    text[at + 1] != b'\n'
}

/// An open line extended by more of its bytes.
fn lengthened(open_line: Mark, bytes: &[u8]) -> Mark
    ensures { result ≡ lengthened open_line bytes.now }
{
    Mark {
        start: open_line.start,
        ascii: open_line.ascii && is_ascii(bytes),
    }
}

/// Pushes a mark for each line that ends between `from` and `to`, and returns the line that is open at `to`. `open_line` is the
/// line that is open at `from`.
pub(crate) fn push_marks(
    marks: &mut Vec<Mark>,
    open_line: Mark,
    text: &[u8],
    from: usize,
    to: usize,
) -> Result<Mark, AllocError>
    requires ordered { from ≤ to }
    requires within { to ≤ length text.now }
    ensures { IfOk result (λ last. marks.new.items ++ marks_from last to (drop to text.now)
        ≡ marks.old.items ++ marks_from open_line from (drop from text.now)) }
{
    let mut open = open_line;
    let mut at = from;
    while let Some(plain) = memchr2(b'\r', b'\n', &text[at..to]) {
        let end = at + plain;
        open = lengthened(open, &text[at..end + 1]);
        at = end + 1;
        if ends_line(text, end) {
            marks.push(open)?;
            open = Mark {
                start: at,
                ascii: true,
            };
        }
    }
    Ok(lengthened(open, &text[at..to]))
}

/// Builds the index of a text.
pub(crate) fn index_of(alloc: Global, text: &[u8]) -> Result<Vec<Mark>, AllocError>
    ensures { IfOk result (λ marks. marks.items ≡ index_of text.now) }
{
    let mut marks = Vec::new(alloc);
    let first = Mark {
        start: 0,
        ascii: true,
    };
    let last = push_marks(&mut marks, first, text, 0, text.len())?;
    marks.push(last)?;
    Ok(marks)
}

/// Returns the number of the line that contains the byte offset; a line includes its line ending.
pub(crate) fn line_at(marks: &[Mark], offset: usize) -> usize
    requires { IsIndex marks.now }
    ensures within { result < length marks.now }
    ensures line { result + 1 ≡ prefix_len (starts_by offset) marks.now }
{
    marks.partition_point(|mark| mark.start <= offset) - 1
}

/// The end of the content of a line that starts at `start` and whose last byte is at `last`. A final LF and a CR before it are
/// one line ending.
fn before_end(text: &[u8], start: usize, last: usize) -> usize
    requires { last < length text.now }
    ensures { result ≡ (if slice_index text.now last == 10
        && (nat_lt start last && slice_index text.now (last - 1) == 13) then last - 1 else last) }
{
    if text[last] != b'\n' {
        return last;
    }
    if last <= start {
        return last;
    }
    if text[last - 1] != b'\r' {
        return last;
    }
    last - 1
}

/// The end of the content of a line: before its line ending, or at the end of the text for the last line.
fn content_end(marks: &[Mark], text: &[u8], number: usize) -> usize
    requires index { marks.now ≡ index_of text.now }
    requires number { number < length marks.now }
    ensures { result ≡ line_start text.now number + length (line_content text.now number) }
{
    if number + 1 == marks.len() {
        return text.len();
    }
    before_end(text, marks[number].start, marks[number + 1].start - 1)
}

/// Returns the content of a line, without its line ending.
pub(crate) fn content<'a>(marks: &[Mark], text: &'a str, number: usize) -> &'a str
    requires index { marks.now ≡ index_of text.now }
    requires number { number < length marks.now }
    ensures { result.now ≡ line_content text.now number }
{
    let end = content_end(marks, text.as_bytes(), number);
    &text[marks[number].start..end]
}

/// Returns the length in bytes of the longest prefix of a line that takes at most `room` units. A line that is all ASCII is not
/// scanned.
pub(crate) fn front_len(mark: Mark, encoding: Encoding, line: &str, room: u64) -> usize
    requires { IsTrue mark.ascii → IsAscii line.now }
    ensures { result ≡ bytes_within encoding room line.now }
{
    if mark.ascii {
        return room.min(line.len() as u64) as usize;
    }
    bytes_within(encoding, room, line)
}

/// Returns the number of units in a prefix of a line. A line that is all ASCII is not scanned.
pub(crate) fn units(mark: Mark, encoding: Encoding, front: &str) -> u64
    requires { IsTrue mark.ascii → IsAscii front.now }
    ensures { result ≡ units_in encoding front.now }
{
    if mark.ascii {
        return front.len() as u64;
    }
    units_in(encoding, front)
}
