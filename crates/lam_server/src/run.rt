//! The main loop of the server.

ghost use Rattle.std.specs.Prelude.{◌-◌, ◌^◌, ◌<◌, List, ℕ};
ghost use Rattle.lam_frame.specs.Device.{source_of, sink_of};
ghost use Rattle.lam_session.specs.State.{fresh, dialect_of};
ghost use Rattle.lam_server.specs.Laws.{FailedPullFindsAllAnswered, HasOneOutput, OutputGrows};
ghost use Rattle.lam_server.specs.Run.{AnswersWhereTold, Runs};

use crate::faults::RunFault;
use crate::server::{Server, Turn};
use lam_frame::{Sink, Source};
use lam_session::Config;
use std::alloc::Global;

/// Serves the input to its end or the end of the session, and returns the exit status of the program.
///
/// The output is the session's answers about the current texts, in the dialect of `config`:
/// - A hover shows the least type that the declarative rules give to the innermost term; on request, a derivation of it is given.
/// - A term is reported exactly if the rules give it no type, each of its parts has one, and the error is not reported elsewhere.
///   A text has type errors exactly if a written type denotes no type, or a definition or a term command has no type.
/// - The edits of a rename preserve binding.
/// - After a dot, exactly those labels are listed for which the projection has a type.
///
/// This holds for terms in pieces that are commands (after a dot, with the label inserted) and for texts without a type of more
/// than 4,096 nodes; the clauses also cover the other answers. `told` states it for a source whose bytes are observable, `runs`
/// for every source, by the pieces that it returned. After a device error or a failed allocation they state it for a prefix of
/// the answers, which includes all that was due before the last pull. When a pull fails, all that was due has been answered,
/// accepted and flushed (`failed_pull`). The contract of `turn` states that an answer is sent before a pull that succeeds; no
/// clause says when an allocation fails. That the edits of a rename preserve binding, and which texts have type errors, follows
/// from two laws of lam_query, `renames_keep_binding` and `no_fault_is_well_typed`.
///
/// The allowed output depends only on the bytes and the dialect: every input has exactly one, except for which derivation of a
/// shown type is given, and a prefix of the output for some bytes is also one for any extension of them.
pub fn run<R: Source, W: Sink>(
    alloc: Global,
    reader: &mut R,
    writer: &mut W,
    config: Config,
) -> Result<u8, RunFault>
    requires source { R.failed reader.old < 2 ^ 64 - 1 }
    requires sink { W.failed writer.old < 2 ^ 64 - 1 }
    ensures told { AnswersWhereTold (fresh (dialect_of config)) (R.coming reader.old) (R.coming reader.new) result (W.taken writer.old) (W.taken writer.new) }
    ensures runs { Runs (source_of R.coming R.failed R.gave) (sink_of W.taken W.flushed W.failed) (fresh (dialect_of config)) reader.old writer.old result reader.new writer.new }
    ensures failed_pull { FailedPullFindsAllAnswered (source_of R.coming R.failed R.gave) (sink_of W.taken W.flushed W.failed) (fresh (dialect_of config)) reader.old writer.old result reader.new writer.new }
    ensures one_output { (input : List ℕ) → HasOneOutput (fresh (dialect_of config)) input }
    ensures grows { (bytes : List ℕ) → OutputGrows (fresh (dialect_of config)) bytes }
{
    let mut server = Server::new(alloc, config)?;
    loop {
        match server.turn(reader, writer)? {
            Turn::More(next) => server = next,
            Turn::End(status) => return Ok(status),
        }
    }
}
