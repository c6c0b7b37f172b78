//! A hover and completions, by the calls that analyse a text for one answer. The programs keep an analysis and ask that.

use crate::written::check_rows;
use lam_query::answers::Item;
use lam_query::{complete, hover};
use lam_rules::Dialect;
use std::alloc::{AllocError, Global};

/// The type at an offset and its range; empty if none is shown.
fn shown(alloc: Global, (text, offset): (&str, usize)) -> Result<String, AllocError> {
    match hover(alloc, text, offset, Dialect::One)? {
        Some(found) => {
            format!(in alloc; "{} {}..{}", found.text, found.span.start, found.span.end)
        }
        None => Ok(String::new(alloc)),
    }
}

static HOVERS: [((&str, usize), &str); 3] = [
    (
        ("let y = {b=0, a=true} in if y.a then y else {a=false}", 0),
        "{a:Bool} 0..53",
    ),
    (
        ("let y = {b=0, a=true} in if y.a then y else {a=false}", 28),
        "{a:Bool, b:Nat} 28..29",
    ),
    (("succ true", 0), ""),
];

#[test]
fn a_type_is_shown(rt: HostRuntime) -> Result<(), AllocError> {
    check_rows(&rt, rt.alloc(), shown, &HOVERS)
}

fn push_item(line: &mut String, item: &Item) -> Result<(), AllocError> {
    match &item.detail {
        Some(detail) => write!(line, "{}:{detail}; ", item.label),
        None => write!(line, "{}; ", item.label),
    }
}

/// The labels or names listed at an offset, with their types.
fn listed(alloc: Global, (text, offset): (&str, usize)) -> Result<String, AllocError> {
    let items = complete(alloc, text, offset, Dialect::One)?;
    let mut line = String::new(alloc);
    for item in &items {
        push_item(&mut line, item)?;
    }
    Ok(line)
}

static LISTS: [((&str, usize), &str); 3] = [
    (("r = {b=0, a=true}; r.a", 21), "a:Bool; b:Nat; "),
    (
        ("r = {b=0, a=true}; s = q; r", 26),
        "r:{a:Bool, b:Nat}; s; ",
    ),
    (("r = {b=0, a=true}; 0.a", 21), ""),
];

#[test]
fn labels_and_names_are_listed(rt: HostRuntime) -> Result<(), AllocError> {
    check_rows(&rt, rt.alloc(), listed, &LISTS)
}
