//! Lines of a text for display, with marks under some of their characters.
ghost use Rattle.std.specs.Prelude.{◌≡◌, ◌++◌, IfOk, OnOk, string_bytes};
ghost use Rattle.lam_text.specs.declared.units.Encoding.{Encoding};
ghost use Rattle.lam_check.specs.Lines.{line_of, shown, is_in_ranges, columns, columns_between, blank, shown_line, blanks, marks};

use lam_text::{Doc, Encoding, Position};
use std::alloc::{AllocError, Global};

/// The characters that a terminal shows in two columns, as inclusive ranges.
const WIDE: [(char, char); 14] = [
    ('\u{1100}', '\u{115f}'),
    ('\u{2e80}', '\u{303e}'),
    ('\u{3041}', '\u{a4cf}'),
    ('\u{a960}', '\u{a97f}'),
    ('\u{ac00}', '\u{d7a3}'),
    ('\u{f900}', '\u{faff}'),
    ('\u{fe30}', '\u{fe6f}'),
    ('\u{ff01}', '\u{ff60}'),
    ('\u{ffe0}', '\u{ffe6}'),
    ('\u{1f300}', '\u{1f64f}'),
    ('\u{1f680}', '\u{1f6ff}'),
    ('\u{1f900}', '\u{1f9ff}'),
    ('\u{1fa70}', '\u{1faff}'),
    ('\u{20000}', '\u{3fffd}'),
];

/// The characters that it shows in no column, likewise.
const ZERO_WIDTH: [(char, char); 7] = [
    ('\u{300}', '\u{36f}'),
    ('\u{1ab0}', '\u{1aff}'),
    ('\u{1dc0}', '\u{1dff}'),
    ('\u{200b}', '\u{200f}'),
    ('\u{20d0}', '\u{20ff}'),
    ('\u{fe00}', '\u{fe0f}'),
    ('\u{fe20}', '\u{fe2f}'),
];

/// The characters that change the direction of those after them, likewise.
const DIRECTIONAL: [(char, char); 2] = [('\u{202a}', '\u{202e}'), ('\u{2066}', '\u{2069}')];

/// Returns the content of a line without its line ending, by zero-based number; empty if there is no such line.
pub fn line_of(doc: &Doc, number: u64) -> &str
    ensures { result.now ≡ line_of doc.now.text number }
{
    let text = doc.text();
    let start = doc.offset_of(Position {
        line: number,
        character: 0,
    });
    let end = doc.offset_of(Position {
        line: number,
        character: text.len() as u64,
    });
    &text[start..end]
}

/// The character to display for `c`.
#[tactic(auto, unfolding(crate::specs::Lines::directional))]
fn shown(c: char) -> char
    ensures { result ≡ shown c }
{
    if c == '\t' {
        return c;
    }
    if c.is_control() {
        return '\u{fffd}';
    }
    if is_in_ranges(&DIRECTIONAL, c) {
        return '\u{fffd}';
    }
    c
}

/// The number of columns that a terminal gives to `c`.
#[tactic(auto, unfolding(crate::specs::Lines::wide, crate::specs::Lines::zero_width))]
fn columns(c: char) -> u64
    ensures { result ≡ columns c }
{
    if is_in_ranges(&WIDE, c) {
        return 2;
    }
    if is_in_ranges(&ZERO_WIDTH, c) {
        return 0;
    }
    1
}

fn is_in_ranges(ranges: &[(char, char)], c: char) -> bool
    ensures { result ≡ is_in_ranges ranges.now c }
{
    for range in ranges {
        if range.0 <= c && c <= range.1 {
            return true;
        }
    }
    false
}

/// What is written below `c`, before the mark.
fn blank(c: char) -> &'static str
    ensures { result.now ≡ blank c }
{
    if c == '\t' {
        return "\t";
    }
    match columns(c) {
        0 => "",
        1 => " ",
        _ => "  ",
    }
}

/// Returns a line for display: control characters other than the tab, and characters that change the direction of the text, become
/// U+FFFD.
pub fn shown_line(alloc: Global, line: &str) -> Result<String, AllocError>
    ensures { IfOk result (λ shown. string_bytes shown ≡ shown_line line.now) }
{
    let mut out = String::new(alloc);
    push_shown(&mut out, line)?;
    Ok(out)
}

/// Appends a line for display.
pub fn push_shown(out: &mut String, line: &str) -> Result<(), AllocError>
    ensures { OnOk result (string_bytes out.new ≡ string_bytes out.old ++ shown_line line.now) }
{
    for c in line.chars() {
        out.push(shown(c))?;
    }
    Ok(())
}

/// Appends the blanks below the first `count` characters of a line.
pub fn push_blanks(out: &mut String, line: &str, count: u64) -> Result<(), AllocError>
    ensures { OnOk result (string_bytes out.new ≡ string_bytes out.old ++ blanks count line.now) }
{
    for c in line.chars().take(count as usize) {
        out.push_str(blank(c))?;
    }
    Ok(())
}

/// Returns the number of columns that the characters of a line take, from index `start` up to but not including `end`.
pub fn columns_between(line: &str, start: u64, end: u64) -> u64
    ensures { result ≡ columns_between start end line.now }
{
    let mut sum = 0;
    for c in line.chars().take(end as usize).skip(start as usize) {
        sum += columns(c);
    }
    sum
}

/// Appends `count` marks.
pub fn push_marks(out: &mut String, count: u64) -> Result<(), AllocError>
    ensures { OnOk result (string_bytes out.new ≡ string_bytes out.old ++ marks count) }
{
    for i in 0..count {
        out.push('^')?;
    }
    Ok(())
}
