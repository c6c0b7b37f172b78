//! How many commands a change types again: those that it touches, and those that use a name whose meaning changes.

use crate::written::check_rows;
use Uses::{First, Nothing, Previous};
use lam_query::Analysis;
use lam_rules::Dialect;
use std::alloc::{AllocError, Global};
use std::fmt::Write;

/// What each of the commands uses.
#[derive(Clone, Copy)]
enum Uses {
    Nothing,
    Previous,
    First,
}

/// A thousand commands that bind `x0`, `x1` and so on, with another text in place of the one at this index.
fn commands(alloc: Global, uses: Uses, number: usize, other: &str) -> Result<String, AllocError> {
    let mut text = String::new(alloc);
    for i in 0..1000 {
        if i == number {
            text.push_str(other)?;
        } else if i == 0 {
            text.push_str("x0 = 0;")?;
        } else {
            push_command(&mut text, uses, i)?;
        }
    }
    Ok(text)
}

fn push_command(text: &mut String, uses: Uses, i: usize) -> Result<(), AllocError> {
    match uses {
        Nothing => write!(text, "x{i} = 0;"),
        Previous => write!(text, "x{i} = x{};", i.saturating_sub(1)),
        First => write!(text, "x{i} = x0;"),
    }
}

/// How many commands are counted as typed when a text is read, and when it has become another.
fn counts(alloc: Global, old: &str, new: &str) -> Result<(usize, usize), AllocError> {
    let analysis = Analysis::new(alloc, old, Dialect::One)?;
    let before = analysis.commands_typed();
    let analysis = analysis.changed(alloc, old, new)?;
    Ok((before, analysis.commands_typed()))
}

/// How many commands are typed when the text is read, and how many more when `other` is put in.
fn typed(alloc: Global, (uses, number, other): (Uses, usize, &str)) -> Result<String, AllocError> {
    let old = commands(alloc, uses, 1000, "")?;
    let new = commands(alloc, uses, number, other)?;
    let (before, after) = counts(alloc, &old, &new)?;
    format!(in alloc; "{before} {}", after.saturating_sub(before))
}

static CHANGES: [((Uses, usize, &str), &str); 21] = [
    // A blank in a command, a name, a term, one command more and one less.
    ((Nothing, 0, "x0  = 0;"), "1000 1"),
    ((Nothing, 500, "x500  = 0;"), "1000 1"),
    ((Nothing, 999, "x999  = 0;"), "1000 1"),
    ((Nothing, 500, "y500 = 0;"), "1000 1"),
    ((Nothing, 500, "x500 = true;"), "1000 1"),
    ((Nothing, 500, "x500 = 0; n = 0;"), "1000 1"),
    ((Nothing, 500, ""), "1000 0"),
    // Two pieces become one, which is not a command; a comment takes up the rest of the text.
    ((Nothing, 500, "x500 = 0"), "1000 0"),
    ((Nothing, 500, "/*"), "1000 0"),
    // Each command uses the one before it.
    ((Previous, 500, "x500  = x499;"), "1000 1"),
    ((Previous, 0, "x0 = 1;"), "1000 1"),
    ((Previous, 0, "x0 = true;"), "1000 1000"),
    ((Previous, 500, "y500 = x499;"), "1000 500"),
    ((Previous, 500, "x500 = true;"), "1000 500"),
    ((Previous, 999, "x999 = true;"), "1000 1"),
    // The name is bound again to the type that it had, so the change ends there.
    ((Previous, 500, "x500 = true; x500 = 0;"), "1000 2"),
    // Each command uses the first one.
    ((First, 0, "x0 = 1;"), "1000 1"),
    ((First, 0, "x0 = true;"), "1000 1000"),
    ((First, 500, "y500 = x0;"), "1000 1"),
    ((First, 500, "x0 = true;"), "1000 500"),
    ((First, 500, "x0 = 0;"), "1000 1"),
];

#[test]
fn a_change_types_what_it_touches(rt: HostRuntime) -> Result<(), AllocError> {
    check_rows(&rt, rt.alloc(), typed, &CHANGES)
}

/// The number of commands counted as typed after this many changes, each of which types all of them.
fn typed_after(alloc: Global, changes: usize) -> Result<String, AllocError> {
    let mut old = commands(alloc, First, 1000, "")?;
    let mut analysis = Analysis::new(alloc, &old, Dialect::One)?;
    for i in 0..changes {
        let first = if i % 2 == 0 { "x0 = true;" } else { "x0 = 0;" };
        let new = commands(alloc, First, 0, first)?;
        analysis = analysis.changed(alloc, &old, &new)?;
        old = new;
    }
    format!(in alloc; "{}", analysis.commands_typed())
}

/// The text has 9,889 bytes, and three more after every other change. The ninth change starts from scratch, since by then more
/// than twice as many bytes plus 65,536 have been read.
static ANEW: [(usize, &str); 3] = [(0, "1000"), (8, "9000"), (9, "1000")];

/// This many commands, each with a name of its own.
fn names(alloc: Global, count: usize) -> Result<String, AllocError> {
    let mut text = String::new(alloc);
    for i in 0..count {
        write!(text, "n{i};")?;
    }
    Ok(text)
}

/// How many commands are counted as typed when a short text has become a long one, and when that has become a longer one.
fn counts_grown(alloc: Global, long: &str, longer: &str) -> Result<(usize, usize), AllocError> {
    let analysis = Analysis::new(alloc, "0;", Dialect::One)?;
    let analysis = analysis.changed(alloc, "0;", long)?;
    let before = analysis.commands_typed();
    let analysis = analysis.changed(alloc, long, longer)?;
    Ok((before, analysis.commands_typed()))
}

/// The same for a text of this many commands and one with one command more.
fn typed_beside(alloc: Global, count: usize) -> Result<String, AllocError> {
    let long = names(alloc, count)?;
    let longer = format!(in alloc; "{long}0;")?;
    let (before, after) = counts_grown(alloc, &long, &longer)?;
    format!(in alloc; "{before} {after}")
}

/// The table of names has an entry for each name, and the table of types at most ten. So the tables exceed 8,192 entries
/// only in the second row, where the last change starts from scratch.
static OUTGROWN: [(usize, &str); 2] = [(8000, "8001 8002"), (9000, "9001 9001")];

#[test]
fn all_is_made_anew_once_the_tables_have_grown(rt: HostRuntime) -> Result<(), AllocError> {
    check_rows(&rt, rt.alloc(), typed_beside, &OUTGROWN)
}

#[test]
fn all_is_made_anew_once_much_was_read(rt: HostRuntime) -> Result<(), AllocError> {
    check_rows(&rt, rt.alloc(), typed_after, &ANEW)
}
