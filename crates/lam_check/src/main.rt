//! The command-line checker: prints the diagnostics, types and derivations of texts without an editor, and verifies derivations.
//!
//! The contracts of these functions say what is printed: `reports::report` for diagnostics, `types::types_text` for types,
//! `drawings::drawing` for derivations, `json::faults_json` and `json::why_json` for both as JSON, and `verdicts::verdict` for a
//! derivation that is verified. What is in this file, in `args.rt`, `files.rt` and `sent.rt` has no contracts: it reads the arguments
//! and the files, and prints. Nothing here deals with LSP messages or clients.
#![tactic(auto)]

mod absences;
mod args;
mod drawings;
mod files;
mod forms;
mod json;
mod lines;
mod paint;
mod plain_types;
mod positions;
mod read_derivations;
mod read_values;
mod reports;
mod sent;
mod terms;
mod types;
mod verdicts;

use absences::absence_at;
use args::{ArgsFault, Asked, Shown, read_args};
use drawings::drawing;
use files::{NO_LIMIT, ReadFault, TEXT_LIMIT, text_of};
use json::{faults_json, why_json};
use lam_rules::Dialect;
use lam_text::Position;
use lines::shown_line;
use paint::Paint;
use reports::{Checked, report};
use sent::tell_verdicts;
use std::alloc::AllocError;
use std::env::{self, Env, VarError};
use std::fmt::Display;
use std::io::{self, ErrorKind, IsTerminal};
use std::process::ExitCode;
use std::rt::Files;
use types::types_text;

// Exit statuses. When several apply, the greatest one is returned.
const FAULTLESS: u8 = 0;

const FAULTY: u8 = 1;

const USAGE: u8 = 2;

const DEVICE: u8 = 4;

const MEMORY: u8 = 5;

/// The name of standard input in reports.
const STANDARD_INPUT: &str = "<stdin>";

/// The number of files between two progress messages.
const FILES_PER_MESSAGE: usize = 100;

/// How output is presented.
#[derive(Clone, Copy)]
struct Looks {
    paint: Paint,
    /// Whether progress is reported.
    reports_progress: bool,
}

fn main(rt: HostRuntime) -> ExitCode {
    let words: Vec<String> = match arguments(&rt) {
        Ok(words) => words,
        Err(error) => return ExitCode::from(refuse(&rt, &error)),
    };
    let looks = Looks {
        paint: paint_for(&rt, rt.stdout().is_terminal()),
        reports_progress: rt.stderr().is_terminal(),
    };
    ExitCode::from(start(&rt, words.as_slice(), looks))
}

fn arguments<R: AllocGlobal + Env>(rt: &R) -> io::Result<Vec<String>> {
    Ok(env::args(rt)?.collect(rt.alloc())?)
}

/// Returns whether to use colours: only on a terminal, and not if `NO_COLOR` is set and not empty.
fn paint_for<R: AllocGlobal + Env>(rt: &R, terminal: bool) -> Paint {
    if !terminal {
        return Paint::Plain;
    }
    match env::var(rt, "NO_COLOR") {
        Ok(value) if value.is_empty() => Paint::Colours,
        Err(VarError::NotPresent) => Paint::Colours,
        _ => Paint::Plain,
    }
}

/// Reports that the arguments could not be read, and returns the exit status.
fn refuse<R: Eprint>(rt: &R, error: &io::Error) -> u8 {
    let _ = eprintln!(rt; "lam_check: cannot read the arguments: {error}");
    if error.kind() == ErrorKind::OutOfMemory {
        return MEMORY;
    }
    USAGE
}

/// Parses the arguments and checks the files, or reports what is wrong. Returns the exit status.
fn start<R: AllocGlobal + Files + Input + Print + Eprint>(
    rt: &R,
    words: &[String],
    looks: Looks,
) -> u8 {
    let slices: Result<Vec<&str>, AllocError> = words
        .iter()
        .map(String::as_str)
        .collect(rt.alloc());
    let Ok(slices) = slices else {
        return report_out_of_memory(rt);
    };
    match read_args(rt.alloc(), slices.as_slice()) {
        Ok((asked, names)) => check_all(rt, asked, names.as_slice(), looks),
        Err(ArgsFault::Help(text)) => tell(rt, text.as_str()),
        Err(ArgsFault::Usage(text)) => report_usage_error(rt, text.as_str()),
        Err(ArgsFault::Memory) => report_out_of_memory(rt),
    }
}

/// Reports a usage error with its control characters replaced, and returns the exit status.
fn report_usage_error<R: AllocGlobal + Eprint>(rt: &R, text: &str) -> u8 {
    for line in text.lines() {
        match shown_line(rt.alloc(), line) {
            Ok(shown) => {
                let _ = eprintln!(rt; "{shown}");
            }
            Err(_) => return report_out_of_memory(rt),
        }
    }
    USAGE
}

/// Checks the files one after another, and returns the exit status.
fn check_all<R: AllocGlobal + Files + Input + Print + Eprint>(
    rt: &R,
    asked: Asked,
    names: &[&str],
    looks: Looks,
) -> u8 {
    let mut status = FAULTLESS;
    let reports = looks.reports_progress && names.len() > FILES_PER_MESSAGE;
    for (i, name) in names.iter().enumerate() {
        if reports && i > 0 && i % FILES_PER_MESSAGE == 0 {
            report_progress(rt, i, names.len());
        }
        status = status.max(check(rt, asked, name, looks.paint));
    }
    status
}

/// Reports progress.
fn report_progress<R: Eprint>(rt: &R, checked: usize, all: usize) {
    let _ = eprintln!(rt; "lam_check: {checked} of {all} files are checked");
}

/// Checks one file, and returns the exit status for it.
fn check<R: AllocGlobal + Files + Input + Print + Eprint>(
    rt: &R,
    asked: Asked,
    name: &str,
    paint: Paint,
) -> u8 {
    let text = match text_of(rt, rt.alloc(), name, limit_for(asked.shown)) {
        Ok(text) => text,
        Err(ReadFault::Memory) => return report_out_of_memory(rt),
        Err(fault) => return tell_of(rt, name, &fault, DEVICE),
    };
    match asked.shown {
        Shown::Faults => tell_faults(rt, asked.dialect, name, &text, paint),
        Shown::FaultsAndTypes => {
            let faults = tell_faults(rt, asked.dialect, name, &text, paint);
            faults.max(tell_types(rt, asked.dialect, &text))
        }
        Shown::FaultsJson => tell_faults_json(rt, asked, shown_name(name), &text),
        Shown::DerivationJson(place) => {
            let found = why_json(
                rt.alloc(),
                asked.encoding,
                shown_name(name),
                &text,
                place,
                asked.dialect,
            );
            tell_found(rt, name, &text, place, found)
        }
        Shown::Verdicts => tell_verdicts(rt, asked, shown_name(name), &text),
        Shown::Derivation(place, form) => {
            let found = drawing(rt.alloc(), &text, place, asked.dialect, form);
            tell_found(rt, name, &text, place, found)
        }
    }
}

/// Returns the maximum size of a file: a derivation may be larger than any text.
fn limit_for(shown: Shown) -> u64 {
    match shown {
        Shown::Verdicts => NO_LIMIT,
        _ => TEXT_LIMIT,
    }
}

/// Prints the report on a text, and returns the exit status for it.
fn tell_faults<R: AllocGlobal + Print + Eprint>(
    rt: &R,
    dialect: Dialect,
    name: &str,
    text: &str,
    paint: Paint,
) -> u8 {
    tell_checked(
        rt,
        report(rt.alloc(), shown_name(name), text, dialect, paint),
    )
}

/// Prints the diagnostics of a text as JSON, and returns the exit status for it.
fn tell_faults_json<R: AllocGlobal + Print + Eprint>(
    rt: &R,
    asked: Asked,
    name: &str,
    text: &str,
) -> u8 {
    tell_checked(
        rt,
        faults_json(rt.alloc(), asked.encoding, name, text, asked.dialect),
    )
}

/// Prints a report, and returns the exit status for it.
fn tell_checked<R: Print + Eprint>(rt: &R, told: Result<Checked, AllocError>) -> u8 {
    let Ok(checked) = told else {
        return report_out_of_memory(rt);
    };
    let status = if checked.count == 0 {
        FAULTLESS
    } else {
        FAULTY
    };
    status.max(tell(rt, &checked.report))
}

/// Prints the types of a text, and returns the exit status for them.
fn tell_types<R: AllocGlobal + Print + Eprint>(rt: &R, dialect: Dialect, text: &str) -> u8 {
    match types_text(rt.alloc(), text, dialect) {
        Ok(types) => tell(rt, &types),
        Err(_) => report_out_of_memory(rt),
    }
}

/// Prints the derivation that was found at a position, or what is missing there, and returns the exit status for it.
fn tell_found<R: AllocGlobal + Print + Eprint>(
    rt: &R,
    name: &str,
    text: &str,
    place: Position,
    found: Result<Option<String>, AllocError>,
) -> u8 {
    let Ok(found) = found else {
        return report_out_of_memory(rt);
    };
    if let Some(told) = found {
        return tell(rt, &told);
    }
    match absence_at(rt.alloc(), text, place) {
        Ok(absence) => tell_of(rt, name, &absence.message(), FAULTY),
        Err(_) => report_out_of_memory(rt),
    }
}

/// Reports a problem with a file on standard error, and returns the exit status: the one given, unless allocation fails.
fn tell_of<R: AllocGlobal + Eprint, D: Display>(rt: &R, name: &str, matter: &D, status: u8) -> u8 {
    let Ok(shown) = shown_line(rt.alloc(), shown_name(name)) else {
        return report_out_of_memory(rt);
    };
    let _ = eprintln!(rt; "lam_check: {shown}: {matter}");
    status
}

/// Prints a text, and returns the exit status for it.
fn tell<R: Print>(rt: &R, text: &str) -> u8 {
    match rt.print(text) {
        Ok(()) => FAULTLESS,
        Err(_) => DEVICE,
    }
}

/// Returns the name of a file as it appears in reports.
fn shown_name(name: &str) -> &str {
    if name == args::INPUT {
        return STANDARD_INPUT;
    }
    name
}

/// Reports that allocation failed, and returns the exit status.
fn report_out_of_memory<R: Eprint>(rt: &R) -> u8 {
    let _ = eprintln!(rt; "lam_check: out of memory");
    MEMORY
}
