//! Command-line arguments.
use crate::forms::Form;
use clap::error::ErrorKind;
use clap::{Arg, ArgAction, ArgMatches, Command, Error};
use lam_rules::Dialect;
use lam_text::{Encoding, Position};
use std::alloc::{AllocError, Global};

const NAME: &str = "lam_check";

static NAME_ALONE: [&str; 1] = [NAME];

/// The accepted values of `--dialect`.
static DIALECTS: [&str; 2] = ["1", "2"];

/// The accepted values of `--position-encoding`.
static ENCODINGS: [&str; 3] = ["utf-8", "utf-16", "utf-32"];

/// The file name that means standard input.
pub const INPUT: &str = "-";

static INPUT_ALONE: [&str; 1] = [INPUT];

const ABOUT: &str = "Checks files in the typed lambda calculus with records and subtyping: \
    reports each error with its line and column.";

const STATUSES: &str =
    "Exit status: 0 if no file has an error (with --why: if the derivation is shown; with \
    --verify: if each derivation is accepted), 1 otherwise, 2 on a usage error, 4 if a file cannot be read or \
    the output cannot be written, 5 if memory runs out.";

/// The parsed arguments.
#[derive(Clone, Copy, Debug)]
pub struct Asked<'a> {
    pub dialect: Dialect,
    pub shown: Shown,
    /// The unit of the columns in JSON.
    pub encoding: Encoding,
    /// The file that the derivations are about, if given with `--of`.
    pub source: Option<&'a str>,
}

/// What to print about each file.
#[derive(Clone, Copy, Debug)]
pub enum Shown {
    Faults,
    FaultsAndTypes,
    /// A derivation of the type of the term at this position, in this form.
    Derivation(Position, Form),
    FaultsJson,
    DerivationJson(Position),
    /// Whether the derivations in the file are valid.
    Verdicts,
}

/// Why the arguments request no check.
#[derive(Debug, Drop)]
pub enum ArgsFault {
    /// Help was requested: its text, for standard output.
    Help(String),
    /// A usage error: its message, for standard error.
    Usage(String),
    /// An allocation failed.
    Memory,
}

/// Parses the arguments into a request and the files it applies to. The first argument is the name of the program.
pub fn read_args<'a>(
    alloc: Global,
    words: &'a [&'a str],
) -> Result<(Asked<'a>, Vec<&'a str>), ArgsFault> {
    let Ok(command) = command(alloc) else {
        return Err(ArgsFault::Memory);
    };
    let matches = match command.try_get_matches_from(named(words)) {
        Ok(matches) => matches,
        Err(error) => return Err(fault_of(alloc, &error)),
    };
    let shown = match what_is_shown(&matches) {
        Ok(shown) => shown,
        Err(text) => return Err(usage(alloc, text)),
    };
    let encoding = match encoding_in(&matches) {
        Ok(encoding) => encoding,
        Err(text) => return Err(usage(alloc, text)),
    };
    let source = matches.get_str("of");
    if source == Some(INPUT) {
        return Err(usage(alloc, "error: --of takes the name of a file\n"));
    }
    let asked = Asked {
        dialect: chosen(matches.get_str("dialect")),
        shown,
        encoding,
        source,
    };
    let names = matches.get_strs("FILE").unwrap_or(INPUT_ALONE.as_slice());
    match Vec::from_slice(alloc, names) {
        Ok(files) => Ok((asked, files)),
        Err(_) => Err(ArgsFault::Memory),
    }
}

/// A usage error with this message.
fn usage(alloc: Global, text: &str) -> ArgsFault {
    match String::from_str(alloc, text) {
        Ok(text) => ArgsFault::Usage(text),
        Err(_) => ArgsFault::Memory,
    }
}

/// Returns what the options ask to show.
fn what_is_shown(matches: &ArgMatches<'_>) -> Result<Shown, &'static str> {
    if matches.get_flag("verify") {
        return Ok(Shown::Verdicts);
    }
    let Some(word) = matches.get_str("why") else {
        if matches.get_flag("json") {
            return Ok(Shown::FaultsJson);
        }
        if matches.get_flag("types") {
            return Ok(Shown::FaultsAndTypes);
        }
        return Ok(Shown::Faults);
    };
    let Some(place) = position_of(word) else {
        return Err("error: --why takes a line and a column, both from 1, as in 3:14\n");
    };
    if matches.get_flag("json") {
        return Ok(Shown::DerivationJson(place));
    }
    Ok(Shown::Derivation(place, form_of(matches)))
}

fn form_of(matches: &ArgMatches<'_>) -> Form {
    if matches.get_flag("html") {
        return Form::Html;
    }
    if matches.get_flag("latex") {
        return Form::Latex;
    }
    Form::Text
}

/// Parses `LINE:COLUMN`, both counted from 1, into a position.
fn position_of(word: &str) -> Option<Position> {
    let (line, column) = word.split_once(':')?;
    Some(Position {
        line: line.parse::<u64>().ok()?.checked_sub(1)?,
        character: column.parse::<u64>().ok()?.checked_sub(1)?,
    })
}

/// Returns the unit of the columns in JSON.
fn encoding_in(matches: &ArgMatches<'_>) -> Result<Encoding, &'static str> {
    let Some(word) = matches.get_str("position-encoding") else {
        return Ok(Encoding::Utf16);
    };
    if !matches.get_flag("json") && !matches.get_flag("verify") {
        return Err("error: --position-encoding goes with --json or --verify\n");
    }
    match word {
        "utf-8" => Ok(Encoding::Utf8),
        "utf-32" => Ok(Encoding::Utf32),
        _ => Ok(Encoding::Utf16),
    }
}

/// The dialect that a value of `--dialect` names.
fn chosen(name: Option<&str>) -> Dialect {
    let Some(word) = name else {
        return Dialect::One;
    };
    if word == "2" {
        return Dialect::Two;
    }
    Dialect::One
}

/// The arguments, or only the program's name if there are none.
fn named<'a>(words: &'a [&'a str]) -> &'a [&'a str] {
    if words.is_empty() {
        return NAME_ALONE.as_slice();
    }
    words
}

fn command<'a>(alloc: Global) -> Result<Command<'a>, AllocError> {
    let mut options = Vec::new(alloc);
    push_options(alloc, &mut options)?;
    Command::new(alloc, NAME)
        .about(ABOUT)
        .after_help(STATUSES)
        .args(options)
}

/// Appends the options, in the order in which the help lists them, and the files.
fn push_options<'a>(alloc: Global, options: &mut Vec<Arg<'a>>) -> Result<(), AllocError> {
    options.push(dialect(alloc))?;
    options.push(types(alloc))?;
    options.push(why(alloc)?)?;
    options.push(latex(alloc)?)?;
    options.push(html(alloc)?)?;
    options.push(json(alloc)?)?;
    options.push(verify(alloc)?)?;
    options.push(of(alloc)?)?;
    options.push(position_encoding(alloc))?;
    options.push(files(alloc))?;
    Ok(())
}

fn dialect<'a>(alloc: Global) -> Arg<'a> {
    Arg::new(alloc, "dialect")
        .long("dialect")
        .value_name("DIALECT")
        .value_parser(DIALECTS.as_slice())
        .default_value("1")
        .help("Subtyping rules: 1 for the book's, 2 adds Bool <: Nat")
}

fn types<'a>(alloc: Global) -> Arg<'a> {
    Arg::new(alloc, "types")
        .long("types")
        .action(ArgAction::SetTrue)
        .help("Shows the least type of each command")
}

fn why<'a>(alloc: Global) -> Result<Arg<'a>, AllocError> {
    Arg::new(alloc, "why")
        .long("why")
        .value_name("LINE:COLUMN")
        .help("Draws a derivation of the type of the innermost term there, as a tree")
        .conflicts_with("types")
}

fn latex<'a>(alloc: Global) -> Result<Arg<'a>, AllocError> {
    Arg::new(alloc, "latex")
        .long("latex")
        .action(ArgAction::SetTrue)
        .help("Draws the tree in LaTeX, with the package bussproofs")
        .requires_arg("why")
}

fn html<'a>(alloc: Global) -> Result<Arg<'a>, AllocError> {
    Arg::new(alloc, "html")
        .long("html")
        .action(ArgAction::SetTrue)
        .help("Draws the tree in HTML, with parts that can be folded")
        .requires_arg("why")?
        .conflicts_with("latex")
}

fn json<'a>(alloc: Global) -> Result<Arg<'a>, AllocError> {
    let json = Arg::new(alloc, "json")
        .long("json")
        .action(ArgAction::SetTrue)
        .help("Writes one line of JSON per file, in the language server's format");
    let json = json.conflicts_with("types")?;
    let json = json.conflicts_with("latex")?;
    json.conflicts_with("html")
}

fn verify<'a>(alloc: Global) -> Result<Arg<'a>, AllocError> {
    let verify = Arg::new(alloc, "verify")
        .long("verify")
        .action(ArgAction::SetTrue)
        .help("Checks derivations read from the files as JSON, as written by --json --why");
    let verify = verify.conflicts_with("types")?;
    let verify = verify.conflicts_with("why")?;
    verify.conflicts_with("json")
}

fn of<'a>(alloc: Global) -> Result<Arg<'a>, AllocError> {
    let of = Arg::new(alloc, "of").long("of").value_name("SOURCE").help(
        "The file with the text that the derivations are about, in place of the one that they name",
    );
    of.requires_arg("verify")
}

fn position_encoding<'a>(alloc: Global) -> Arg<'a> {
    Arg::new(alloc, "position-encoding")
        .long("position-encoding")
        .value_name("ENCODING")
        .value_parser(ENCODINGS.as_slice())
        .help(
            "The unit of columns in JSON, as the client and the server agreed on; utf-16 if not given",
        )
}

fn files<'a>(alloc: Global) -> Arg<'a> {
    Arg::new(alloc, "FILE")
        .num_args(0..)
        .action(ArgAction::Append)
        .help("The files to check; standard input if none is named, or for -")
}

/// Converts an error of the parser. If allocation failed, its text may be cut short, so the kind is examined first.
fn fault_of(alloc: Global, error: &Error) -> ArgsFault {
    let kind = error.kind();
    if kind == ErrorKind::OutOfMemory {
        return ArgsFault::Memory;
    }
    let Ok(text) = format!(in alloc; "{error}") else {
        return ArgsFault::Memory;
    };
    if kind == ErrorKind::DisplayHelp {
        ArgsFault::Help(text)
    } else {
        ArgsFault::Usage(text)
    }
}
