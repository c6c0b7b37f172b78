//! Updates of the line index when a part of the text is replaced.
ghost use Rattle.std.specs.Prelude.{◌≡◌, ◌+◌, ◌-◌, ◌^◌, ◌<◌, ◌≤◌, ◌++◌, length, take, drop, map, OnOk, All};
ghost use Rattle.std.specs.List.{prefix_len};
ghost use Rattle.lam_text.specs.Lines.{lines_of};
ghost use Rattle.lam_text.specs.inner.Index.{index_of};
ghost use Rattle.lam_text.specs.inner.Search.{starts_by, open_at};
ghost use Rattle.lam_text.specs.inner.Splice.{closed, first_ascii_on, first_start, moved, IsSeam, IsIndexBefore};

use crate::index::{Mark, is_ascii_between, line_at, push_marks};
use std::alloc::{AllocError, Global};

/// A replacement in a text: `inserted` bytes replace the bytes from `start` to `end`.
#[derive(Clone, Copy)]
pub(crate) struct Splice {
    pub(crate) start: usize,
    pub(crate) end: usize,
    pub(crate) inserted: usize,
}

/// What the index and the text before a splice say of its two ends.
#[derive(Clone, Copy)]
pub(crate) struct Seam {
    /// The byte before the splice, or 0. If it is a CR, what follows it decides whether it ends a line.
    from: usize,
    /// The number of the line that contains this byte, and this line up to it.
    first: usize,
    open: Mark,
    /// The number of the line that contains the end of the splice, and whether it is all ASCII from there on.
    last: usize,
    ascii: bool,
}

/// Reads the seam of a splice, from the text before it.
pub(crate) fn seam_of(marks: &[Mark], text: &[u8], splice: Splice) -> Seam
    requires index { marks.now ≡ index_of text.now }
    requires ordered { splice.start ≤ splice.end }
    requires within { splice.end ≤ length text.now }
    ensures { IsSeam text.now splice result }
{
    let from = splice.start.saturating_sub(1);
    let first = line_at(marks, from);
    let last = line_at(marks, splice.end);
    Seam {
        from,
        first,
        open: open_at(marks, text, first, from),
        last,
        ascii: ascii_from(marks, text, last, splice.end),
    }
}

/// Updates the index of a text to that of `new`, which is the text after the splice. Only the inserted bytes are searched, and
/// the byte before them.
pub(crate) fn mend(
    alloc: Global,
    marks: &mut Vec<Mark>,
    new: &[u8],
    splice: Splice,
    seam: Seam,
) -> Result<(), AllocError>
    requires { IsIndexBefore marks.old.items new.now splice seam }
    ensures { OnOk result (marks.new.items ≡ index_of new.now) }
{
    let mut found = Vec::new(alloc);
    let to = splice.start + splice.inserted;
    let open = push_marks(&mut found, seam.open, new, seam.from, to)?;
    found.push(closed(open, seam.ascii))?;
    let next = seam.last + 1;
    move_marks(marks, next, splice);
    put(marks, seam.first, next, found)
}

/// An open line with its end, which is all ASCII or not.
fn closed(open_line: Mark, ascii: bool) -> Mark
    ensures { result ≡ closed open_line ascii }
{
    Mark {
        start: open_line.start,
        ascii: open_line.ascii && ascii,
    }
}

/// The line that is open at `at`, up to that byte. Its bytes are read only if the line is not all ASCII.
fn open_at(marks: &[Mark], text: &[u8], number: usize, at: usize) -> Mark
    requires index { marks.now ≡ index_of text.now }
    requires within { at ≤ length text.now }
    requires number { number < length marks.now }
    requires line { number + 1 ≡ prefix_len (starts_by at) marks.now }
    ensures { result ≡ open_at text.now at }
{
    let mark = marks[number];
    Mark {
        start: mark.start,
        ascii: mark.ascii || is_ascii_between(text, mark.start, at),
    }
}

/// Whether a line is all ASCII from `at` on. Its bytes are read only if the line is not all ASCII.
fn ascii_from(marks: &[Mark], text: &[u8], number: usize, at: usize) -> bool
    requires index { marks.now ≡ index_of text.now }
    requires within { at ≤ length text.now }
    requires number { number < length marks.now }
    requires line { number + 1 ≡ prefix_len (starts_by at) marks.now }
    ensures { result ≡ first_ascii_on (lines_of (drop at text.now)) }
{
    if marks[number].ascii {
        return true;
    }
    let end = first_start(&marks[number + 1..], text.len());
    is_ascii_between(text, at, end)
}

/// The start of the first of these lines, or the end of the text.
fn first_start(marks: &[Mark], end: usize) -> usize
    ensures { result ≡ first_start marks.now end }
{
    match marks {
        [] => end,
        [first, ..] => first.start,
    }
}

/// Moves the marks from number `from` on with their text: what was at `splice.end` then follows the inserted bytes.
fn move_marks(marks: &mut Vec<Mark>, from: usize, splice: Splice)
    requires within { from ≤ length marks.old.items }
    requires fits { All (λ mark. (splice.end ≤ mark.start)
        × (mark.start - splice.end + (splice.start + splice.inserted) < 2 ^ 64)) (drop from marks.old.items) }
    ensures { marks.new.items
        ≡ take from marks.old.items ++ map (moved splice.end (splice.start + splice.inserted)) (drop from marks.old.items) }
{
    let later = &mut marks[from..];
    for mark in later.iter_mut() {
        mark.start = mark.start - splice.end + (splice.start + splice.inserted);
    }
}

/// Puts `found` in place of the marks from number `from` up to `to`.
fn put(marks: &mut Vec<Mark>, from: usize, to: usize, found: Vec<Mark>) -> Result<(), AllocError>
    requires ordered { from ≤ to }
    requires within { to ≤ length marks.old.items }
    ensures { OnOk result (marks.new.items ≡ take from marks.old.items ++ (found.items ++ drop to marks.old.items)) }
{
    marks.splice(from..to, found)?;
    Ok(())
}
