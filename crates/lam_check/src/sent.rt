//! Files of derivations to verify: each is read along with the text that it is about.
use crate::args::{Asked, INPUT};
use crate::files::{ReadFault, TEXT_LIMIT, text_of};
use crate::lines::shown_line;
use crate::verdicts::{sent_of, verdict};
use crate::{
    DEVICE, FAULTLESS, FAULTY, STANDARD_INPUT, report_out_of_memory, tell, tell_checked, tell_of,
};
use serde_json::{Category, Error, Value};
use std::alloc::{AllocError, Global};
use std::rt::Files;

/// Verifies the derivations in a file, which are the whole file or one on each line. Prints the results, and returns the exit
/// status for them.
pub fn tell_verdicts<R: AllocGlobal + Files + Input + Print + Eprint>(
    rt: &R,
    asked: Asked<'_>,
    name: &str,
    text: &str,
) -> u8 {
    let fault = match Value::from_str(rt.alloc(), text) {
        Ok(value) => return tell_verdict(rt, asked, name, &value),
        Err(fault) => fault,
    };
    match text.trim_start().split_once('\n') {
        Some((first, _)) if Value::from_str(rt.alloc(), first).is_ok() => {
            tell_lines(rt, asked, name, text)
        }
        _ => tell_no_json(rt, name, &fault, 0),
    }
}

/// Verifies a derivation on each line that is not blank. Prints the results, and returns the exit status for them.
fn tell_lines<R: AllocGlobal + Files + Input + Print + Eprint>(
    rt: &R,
    asked: Asked<'_>,
    name: &str,
    text: &str,
) -> u8 {
    let mut status = FAULTLESS;
    for (above, line) in text.lines().enumerate() {
        if line.trim().is_empty() {
            continue;
        }
        let own = match Value::from_str(rt.alloc(), line) {
            Ok(value) => tell_verdict(rt, asked, name, &value),
            Err(fault) => tell_no_json(rt, name, &fault, above),
        };
        status = status.max(own);
    }
    status
}

/// Verifies one derivation. Prints the result, and returns the exit status for it.
fn tell_verdict<R: AllocGlobal + Files + Input + Print + Eprint>(
    rt: &R,
    asked: Asked<'_>,
    name: &str,
    value: &Value,
) -> u8 {
    let (derivation, file) = sent_of(value);
    let Some(source) = asked.source.or(file_named(file)) else {
        return tell_problem(
            rt,
            name,
            "it names no file that can be read: give the file of its text with --of",
        );
    };
    let text = match text_of(rt, rt.alloc(), source, TEXT_LIMIT) {
        Ok(text) => text,
        Err(ReadFault::Memory) => return report_out_of_memory(rt),
        Err(fault) => return tell_of(rt, source, &fault, DEVICE),
    };
    tell_checked(
        rt,
        verdict(
            rt.alloc(),
            name,
            asked.encoding,
            &text,
            derivation,
            asked.dialect,
        ),
    )
}

/// Returns the name of a file, unless it stands for standard input, which cannot be read again.
fn file_named(file: Option<&str>) -> Option<&str> {
    if file == Some(STANDARD_INPUT) || file == Some(INPUT) {
        return None;
    }
    file
}

/// Reports that a text is not JSON, and returns the exit status. `above` is the number of lines before it in its file.
fn tell_no_json<R: AllocGlobal + Print + Eprint>(
    rt: &R,
    name: &str,
    fault: &Error,
    above: usize,
) -> u8 {
    if fault.classify() == Category::Memory {
        return report_out_of_memory(rt);
    }
    match no_json(rt.alloc(), fault, above) {
        Ok(what) => tell_problem(rt, name, &what),
        Err(_) => report_out_of_memory(rt),
    }
}

/// The message for a text that is not JSON, with the position in its file.
fn no_json(alloc: Global, fault: &Error, above: usize) -> Result<String, AllocError> {
    let told = format!(in alloc; "{fault}")?;
    let reason = without_position(&told);
    let line = above.saturating_add(fault.line());
    let column = fault.column();
    format!(in alloc; "it is not JSON: {reason} at line {line} column {column}")
}

/// A message of the JSON library without the position at its end.
fn without_position(message: &str) -> &str {
    match message.split_once(" at line ") {
        Some((reason, _)) => reason,
        None => message,
    }
}

/// Prints a problem with a file, and returns the exit status.
fn tell_problem<R: AllocGlobal + Print + Eprint>(rt: &R, name: &str, what: &str) -> u8 {
    let Ok(shown) = shown_line(rt.alloc(), name) else {
        return report_out_of_memory(rt);
    };
    match format!(in rt.alloc(); "{shown}: {what}\n") {
        Ok(line) => FAULTY.max(tell(rt, &line)),
        Err(_) => report_out_of_memory(rt),
    }
}
