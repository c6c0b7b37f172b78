//! The language server: reads frames of the base protocol from standard input, and writes the session's answers to standard
//! output.
//!
//! `run::run` does all the work between the two, and its contract defines the answer to every input, however it is split into
//! pieces. Nothing here deals with the meaning of a message.
#![tactic(auto)]

ghost use Rattle.std.specs.Prelude.{◌≡◌, ◌≢◌, ◌-◌, ◌^◌, ◌<◌, map, string_bytes};
ghost use Rattle.lam_frame.specs.Device.{source_of, sink_of};
ghost use Rattle.std.specs.IoError.{error_kind};
ghost use Rattle.lam_session.specs.State.{dialect_of, fresh};
ghost use Rattle.lam_server.specs.inner.Ending.{EndsAsRun, EndsAsSomeRun, EndsByWords};
ghost use Rattle.lam_server.specs.Program.{status_of};
ghost use Rattle.lam_server.specs.Words.{ReadsWords};

mod answer;
mod args;
mod faults;
mod run;
mod server;
#[cfg(test)]
mod tests;

use args::{ArgsFault, read_args};
use faults::{RunFault, line_of, status_of};
use lam_frame::{FromRead, Sink, Source, ToWrite};
use lam_session::Config;
use run::run;
use std::alloc::{AllocError, Global};
use std::env::{self, Env};
use std::io::{self, ErrorKind, Printer};
use std::process::ExitCode;

/// The exit status after a usage error.
const USAGE: u8 = 2;

fn main(rt: HostRuntime) -> ExitCode {
    let words: Vec<String> = match words(&rt) {
        Ok(words) => words,
        Err(error) => return ExitCode::from(refuse(&rt, &error)),
    };
    ExitCode::from(start(&rt, words.as_slice()))
}

fn words<R: AllocGlobal + Env>(rt: &R) -> io::Result<Vec<String>> {
    Ok(env::args(rt)?.collect(rt.alloc())?)
}

/// Reports that the arguments could not be read, and returns the exit status.
fn refuse<R: Eprint>(rt: &R, error: &io::Error) -> u8
    ensures memory { error_kind error.now ≡ ErrorKind.OutOfMemory → result ≡ 5 }
    ensures usage { error_kind error.now ≢ ErrorKind.OutOfMemory → result ≡ 2 }
{
    if error.kind() == ErrorKind::OutOfMemory {
        return report(rt, RunFault::Memory);
    }
    let _ = eprintln!(rt; "lam_server: cannot read the arguments: {error}");
    USAGE
}

/// Parses the arguments and runs the server, or reports what is wrong. Returns the exit status.
fn start<R: AllocGlobal + Input + Print + Eprint>(rt: &R, words: &[String]) -> u8
    ensures { let source = ⟦<FromRead<R::Reader> as Source>⟧ in let sink = ⟦<ToWrite<Printer<'static, R>> as Sink>⟧ in
        EndsByWords (EndsAsSomeRun (source_of source.coming source.failed source.gave) (sink_of sink.taken sink.flushed sink.failed)) (map string_bytes words.now) result }
{
    match read_words(rt.alloc(), words) {
        Ok(config) => serve(rt, config),
        Err(ArgsFault::Help(text)) => {
            let _ = print!(rt; "{text}");
            0
        }
        Err(ArgsFault::Usage(text)) => {
            let _ = eprint!(rt; "{text}");
            USAGE
        }
        Err(ArgsFault::Memory) => report(rt, RunFault::Memory),
    }
}

fn read_words(alloc: Global, words: &[String]) -> Result<Config, ArgsFault>
    ensures { ReadsWords (map string_bytes words.now) result }
{
    let slices: Result<Vec<&str>, AllocError> = words.iter().map(String::as_str).collect(alloc);
    let Ok(slices) = slices else {
        return Err(ArgsFault::Memory);
    };
    read_args(alloc, slices.as_slice())
}

/// Serves standard input and output, and returns the exit status.
fn serve<R: AllocGlobal + Input + Print + Eprint>(rt: &R, config: Config) -> u8
    ensures { let source = ⟦<FromRead<R::Reader> as Source>⟧ in let sink = ⟦<ToWrite<Printer<'static, R>> as Sink>⟧ in
        EndsAsSomeRun (source_of source.coming source.failed source.gave) (sink_of sink.taken sink.flushed sink.failed) (fresh (dialect_of config)) result }
{
    let mut reader = FromRead::new(rt.reader());
    let mut writer = ToWrite::new(io::writer(rt));
    served(rt, &mut reader, &mut writer, config)
}

/// Serves a source and a sink, and returns the exit status.
fn served<R: AllocGlobal + Eprint, S: Source, W: Sink>(
    rt: &R,
    reader: &mut S,
    writer: &mut W,
    config: Config,
) -> u8
    requires source { S.failed reader.old < 2 ^ 64 - 1 }
    requires sink { W.failed writer.old < 2 ^ 64 - 1 }
    ensures { EndsAsRun (source_of S.coming S.failed S.gave) (sink_of W.taken W.flushed W.failed) (fresh (dialect_of config)) reader.old writer.old result reader.new writer.new }
{
    match run(rt.alloc(), reader, writer, config) {
        Ok(status) => status,
        Err(fault) => report(rt, fault),
    }
}

/// Reports on standard error why a run ended, and returns the exit status. A failure to report is ignored.
fn report<R: Eprint>(rt: &R, fault: RunFault) -> u8
    ensures { result ≡ status_of fault }
{
    let line = line_of(&fault);
    let _ = eprintln!(rt; "{line}");
    status_of(&fault)
}
