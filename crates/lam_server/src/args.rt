//! Command-line arguments.

ghost use Rattle.std.specs.Prelude.{◌≡◌, false, IfOk, codes, map, option_map};
ghost use Rattle.clap.specs.Simple.{app_of, new_app};
ghost use Rattle.clap.specs.Values.{kind_of};
ghost use Rattle.clap.specs.Walk.{rule_of};
ghost use Rattle.lam_server.specs.CommandLine.{IsCommandLine, IsDialect, client, dialect_named, named_words, stdio};
ghost use Rattle.lam_server.specs.Words.{ReadsWords, TellsKind};

use clap::error::ErrorKind;
use clap::{Arg, ArgAction, Command, Error};
use lam_rules::Dialect;
use lam_session::Config;
use std::alloc::{AllocError, Global};
use thiserror::Error as FaultError;

const NAME: &str = "lam_server";

static NAME_ALONE: [&str; 1] = [NAME];

/// The accepted values of `--dialect`.
static DIALECTS: [&str; 2] = ["1", "2"];

const ABOUT: &str = "A language server for the typed lambda calculus with records and subtyping. \
    It speaks LSP 3.17 on standard input and output. The request fullsub/derivation asks for a \
    derivation of the type under the cursor.";

const STATUSES: &str =
    "Exit status: 0 on exit after shutdown, 1 on exit without it or if the input ends without exit, \
    2 on a usage error, 3 if the input is not a sequence of frames, 4 if reading or writing fails, \
    5 if memory runs out.";

/// Why the arguments start no run.
#[derive(Debug, Drop, FaultError)]
pub enum ArgsFault {
    /// Help was requested: its text, for standard output.
    #[error("{0}")]
    Help(String),
    /// A usage error: its message, for standard error.
    #[error("{0}")]
    Usage(String),
    /// An allocation failed.
    #[error("F7 Memory")]
    Memory,
}

/// Parses the arguments: `--dialect 1`, which is the default, or `--dialect 2`, and `--stdio` and `--clientProcessId TEXT`, which
/// editors pass and which have no effect. The first argument is the name of the program; if there are none, its own name is used.
pub fn read_args(alloc: Global, words: &[&str]) -> Result<Config, ArgsFault>
    ensures { ReadsWords (map (λ word. word.now) words.now) result }
{
    let Ok(command) = command(alloc) else {
        return Err(ArgsFault::Memory);
    };
    match command.try_get_matches_from(named(words)) {
        Ok(matches) => Ok(Config::new(chosen(matches.get_str("dialect")))),
        Err(error) => Err(fault_of(alloc, &error)),
    }
}

/// The dialect that a value of `--dialect` names.
fn chosen(name: Option<&str>) -> Dialect
    ensures { result ≡ dialect_named (option_map (λ word. word.now) name.entry) }
{
    let Some(word) = name else {
        return Dialect::One;
    };
    if word == "2" {
        return Dialect::Two;
    }
    Dialect::One
}

/// The arguments, or only the program's name if there are none.
fn named<'a>(words: &'a [&'a str]) -> &'a [&'a str]
    ensures { map (λ word. word.now) result.now ≡ named_words (map (λ word. word.now) words.now) }
{
    if words.is_empty() {
        return NAME_ALONE.as_slice();
    }
    words
}

fn command<'a>(alloc: Global) -> Result<Command<'a>, AllocError>
    ensures { IfOk result IsCommandLine }
{
    let command = bare_command(alloc);
    let command = command.arg(stdio(alloc))?;
    let command = command.arg(client(alloc))?;
    command.arg(dialect(alloc))
}

fn bare_command<'a>(alloc: Global) -> Command<'a>
    ensures { app_of result ≡ new_app (codes "lam_server") }
{
    Command::new(alloc, NAME).about(ABOUT).after_help(STATUSES)
}

fn stdio<'a>(alloc: Global) -> Arg<'a>
    ensures rule { rule_of result ≡ stdio }
    ensures local { result.global ≡ false }
{
    Arg::new(alloc, "stdio")
        .long("stdio")
        .action(ArgAction::SetTrue)
        .help("Use standard input and output (always the case)")
}

fn client<'a>(alloc: Global) -> Arg<'a>
    ensures rule { rule_of result ≡ client }
    ensures local { result.global ≡ false }
{
    Arg::new(alloc, "clientProcessId")
        .long("clientProcessId")
        .value_name("TEXT")
        .help("Accepted and ignored")
}

fn dialect<'a>(alloc: Global) -> Arg<'a>
    ensures rule { IsDialect (rule_of result) }
    ensures local { result.global ≡ false }
{
    Arg::new(alloc, "dialect")
        .long("dialect")
        .value_name("DIALECT")
        .value_parser(DIALECTS.as_slice())
        .default_value("1")
        .help("Subtyping rules: 1 for the book's, 2 adds Bool <: Nat")
}

/// Converts an error of the parser. If allocation failed, its text may be cut short, so the kind is examined first.
fn fault_of(alloc: Global, error: &Error) -> ArgsFault
    ensures { TellsKind (kind_of error.now) result }
{
    let kind = error.kind();
    if kind == ErrorKind::OutOfMemory {
        return ArgsFault::Memory;
    }
    let Ok(text) = format!(in alloc; "{error}") else {
        return ArgsFault::Memory;
    };
    if kind == ErrorKind::DisplayHelp {
        ArgsFault::Help(text)
    } else {
        ArgsFault::Usage(text)
    }
}
