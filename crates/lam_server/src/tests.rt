//! Tests that need in-memory devices: that a run goes turn by turn and answers each message before it reads on, what it leaves when
//! one call of a device fails, and that the values of `Session::step` are what it writes.
ghost use Rattle.std.specs.Prelude.{◌≡◌, Some, ⊤};

use crate::faults::RunFault;
use crate::run::run;
use crate::server::{Server, Turn};
use lam_frame::{BytesIn, BytesOut, DeviceFault, FailAt, Sink, Source};
use lam_rpc::classify;
use lam_rules::Dialect;
use lam_session::{Config, Session};
use std::alloc::{AllocError, Global};
use std::cell::Cell;

const INITIALIZE: &str =
    "Content-Length: 46\r\n\r\n{\"jsonrpc\":\"2.0\",\"id\":0,\"method\":\"initialize\"}";

const SHUTDOWN: &str =
    "Content-Length: 44\r\n\r\n{\"jsonrpc\":\"2.0\",\"id\":2,\"method\":\"shutdown\"}";

const EXIT: &str = "Content-Length: 33\r\n\r\n{\"jsonrpc\":\"2.0\",\"method\":\"exit\"}";

/// The three messages above.
const WHOLE: &str =
    "Content-Length: 46\r\n\r\n{\"jsonrpc\":\"2.0\",\"id\":0,\"method\":\"initialize\"}\
    Content-Length: 44\r\n\r\n{\"jsonrpc\":\"2.0\",\"id\":2,\"method\":\"shutdown\"}\
    Content-Length: 33\r\n\r\n{\"jsonrpc\":\"2.0\",\"method\":\"exit\"}";

/// The answers to them.
const ANSWERS: &str = "Content-Length: 273\r\n\r\n\
    {\"id\":0,\"jsonrpc\":\"2.0\",\"result\":{\"capabilities\":{\"completionProvider\":{\"triggerCharacters\":[\".\"]},\"definitionProvider\":true,\"hoverProvider\":true,\"positionEncoding\":\"utf-16\",\"referencesProvider\":true,\"renameProvider\":true,\"textDocumentSync\":{\"change\":2,\"openClose\":true}}}}\
    Content-Length: 38\r\n\r\n{\"id\":2,\"jsonrpc\":\"2.0\",\"result\":null}";

/// Returns the number of turns that continue, and the exit status of the last one.
fn turns(alloc: Global, input: &[u8], writer: &mut BytesOut) -> Result<(usize, u8), RunFault>
    requires { writer.old.failures ≡ 0 }
{
    let mut reader = BytesIn::new(input);
    let Ok(mut server) = Server::new(alloc, Config::new(Dialect::One)) else {
        return Err(RunFault::Memory);
    };
    for count in 0..100 {
        let turn = match server.turn(&mut reader, writer) {
            Ok(turn) => turn,
            Err(fault) => return Err(fault),
        };
        match turn {
            Turn::More(next) => server = next,
            Turn::End(status) => return Ok((count, status)),
        }
    }
    Err(RunFault::Device)
}

/// An input, the number of turns that continue, and the exit status of the last one.
const TURNS: [(&str, usize, u8); 2] = [(WHOLE, 2, 0), (SHUTDOWN, 1, 1)];

#[test]
fn turn_by_turn(rt: HostRuntime) {
    for (input, more, status) in TURNS {
        let mut writer = BytesOut::new(rt.alloc());
        let found = turns(rt.alloc(), input.as_bytes(), &mut writer);
        assert_eq!(rt; found, Ok((more, status)));
    }
}

/// Yields one message per pull, and fails if pulled before the previous one is answered.
#[derive(Drop)]
struct Asker<'a> {
    frames: &'a [&'a str],
    /// The number of answers that must be flushed before each message, and at the end.
    owed: &'a [usize],
    given: usize,
    answered: &'a Cell<usize>,
    failures: u64,
}

impl Source for Asker<'_> {
    ghost failed = { λ s. s.failures };

    ghost gave = { λ _ _ _. ⊤ };

    fn failures(&self) -> u64 {
        self.failures
    }

    fn pull(&mut self, into: &mut [u8]) -> Result<usize, DeviceFault> {
        let Some(owed) = self.owed.get(self.given) else {
            return Ok(0);
        };
        if self.answered.get() != *owed {
            self.failures += 1;
            return Err(DeviceFault);
        }
        let Some(frame) = self.frames.get(self.given) else {
            return Ok(0);
        };
        self.given += 1;
        let bytes = frame.as_bytes();
        let count = bytes.len().min(into.len());
        into[..count].copy_from_slice(&bytes[..count]);
        Ok(count)
    }
}

/// Counts the flushes that follow some bytes.
#[derive(Drop)]
struct Hearer<'a> {
    inner: BytesOut,
    unflushed: bool,
    answered: &'a Cell<usize>,
}

impl Sink for Hearer<'_> {
    ghost taken = { λ s. Some s.inner.bytes };

    ghost flushed = { λ s. Some s.inner.flushed };

    ghost failed = { λ s. s.inner.failures };

    fn failures(&self) -> u64 {
        self.inner.failures()
    }

    fn push(&mut self, from: &[u8]) -> Result<usize, DeviceFault> {
        self.unflushed = true;
        self.inner.push(from)
    }

    fn flush(&mut self) -> Result<(), DeviceFault> {
        if self.unflushed {
            self.answered.set(self.answered.get().wrapping_add(1));
        }
        self.unflushed = false;
        self.inner.flush()
    }
}

/// Runs the server with one message per pull, and returns the outcome and the output.
fn asked(alloc: Global, frames: &[&str], owed: &[usize]) -> (Result<u8, RunFault>, BytesOut) {
    let answered = Cell::new(0);
    let mut reader = Asker {
        frames,
        owed,
        given: 0,
        answered: &answered,
        failures: 0,
    };
    let mut writer = Hearer {
        inner: BytesOut::new(alloc),
        unflushed: false,
        answered: &answered,
    };
    let outcome = run(alloc, &mut reader, &mut writer, Config::new(Dialect::One));
    (outcome, writer.inner)
}

#[test]
fn answers_before_it_pulls_again(rt: HostRuntime) {
    let messages = [INITIALIZE, SHUTDOWN, EXIT];
    let (found, writer) = asked(rt.alloc(), &messages, &[0, 1, 2, 2]);
    assert_eq!(rt; found, Ok(0));
    assert_eq!(rt; writer.bytes(), ANSWERS.as_bytes());
}

/// The bodies of a session that opens and changes a text, and requests a type, a derivation, completions, references and a rename.
const BODIES: [&str; 10] = [
    "{\"jsonrpc\":\"2.0\",\"id\":0,\"method\":\"initialize\"}",
    "{\"jsonrpc\":\"2.0\",\"method\":\"textDocument/didOpen\",\"params\":{\"textDocument\":{\"uri\":\"file:///h\",\"text\":\"f : {a:Nat}->Nat; f {a=0, b=true}; f {}\"}}}",
    "{\"jsonrpc\":\"2.0\",\"method\":\"textDocument/didChange\",\"params\":{\"textDocument\":{\"uri\":\"file:///h\",\"version\":2},\"contentChanges\":[{\"range\":{\"start\":{\"line\":0,\"character\":33},\"end\":{\"line\":0,\"character\":34}},\"text\":\"0\"}]}}",
    "{\"jsonrpc\":\"2.0\",\"id\":1,\"method\":\"textDocument/hover\",\"params\":{\"textDocument\":{\"uri\":\"file:///h\"},\"position\":{\"line\":0,\"character\":18}}}",
    "{\"jsonrpc\":\"2.0\",\"id\":2,\"method\":\"fullsub/derivation\",\"params\":{\"textDocument\":{\"uri\":\"file:///h\"},\"position\":{\"line\":0,\"character\":18}}}",
    "{\"jsonrpc\":\"2.0\",\"id\":3,\"method\":\"textDocument/completion\",\"params\":{\"textDocument\":{\"uri\":\"file:///h\"},\"position\":{\"line\":0,\"character\":18}}}",
    "{\"jsonrpc\":\"2.0\",\"id\":4,\"method\":\"textDocument/rename\",\"params\":{\"textDocument\":{\"uri\":\"file:///h\"},\"position\":{\"line\":0,\"character\":0},\"newName\":\"g\"}}",
    "{\"jsonrpc\":\"2.0\",\"id\":5,\"method\":\"textDocument/references\",\"params\":{\"textDocument\":{\"uri\":\"file:///h\"},\"position\":{\"line\":0,\"character\":0},\"context\":{\"includeDeclaration\":true}}}",
    "{\"jsonrpc\":\"2.0\",\"id\":6,\"method\":\"shutdown\"}",
    "{\"jsonrpc\":\"2.0\",\"method\":\"exit\"}",
];

/// The number of answers due before each pull, and at the end.
const OWED: [usize; 11] = [0, 1, 2, 3, 4, 5, 6, 7, 8, 9, 9];

/// The bodies as frames.
fn frames(alloc: Global) -> Result<Vec<String>, AllocError> {
    let mut made = Vec::new(alloc);
    for body in BODIES.as_slice() {
        made.push(format!(in alloc; "Content-Length: {}\r\n\r\n{body}", body.len())?)?;
    }
    Ok(made)
}

/// Runs the first `count` messages of the session, with failures in pull number `pull` and in push or flush number `call`, where
/// 0 means none. Returns the outcome and the output.
fn session(
    alloc: Global,
    count: usize,
    pull: u64,
    call: u64,
) -> Result<(Result<u8, RunFault>, Vec<u8>), AllocError> {
    let made = frames(alloc)?;
    let texts: Vec<&str> = made.iter().take(count).map(String::as_str).collect(alloc)?;
    let answered = Cell::new(0);
    let asker = Asker {
        frames: texts.as_slice(),
        owed: OWED.as_slice(),
        given: 0,
        answered: &answered,
        failures: 0,
    };
    let hearer = Hearer {
        inner: BytesOut::new(alloc),
        unflushed: false,
        answered: &answered,
    };
    let mut reader = FailAt::new(asker, pull);
    let mut writer = FailAt::new(hearer, call);
    let outcome = run(alloc, &mut reader, &mut writer, Config::new(Dialect::One));
    let mut written = Vec::new(alloc);
    written.extend_from_slice(writer.inner().inner.bytes())?;
    Ok((outcome, written))
}

#[test]
fn each_pull_fails_in_turn(rt: HostRuntime) -> Result<(), AllocError> {
    for pull in 1..11usize {
        let (outcome, written) = session(rt.alloc(), 10, pull as u64, 0)?;
        let (_, answers) = session(rt.alloc(), pull.wrapping_sub(1), 0, 0)?;
        assert_eq!(rt; outcome, Err(RunFault::Device));
        assert_eq!(rt; written, answers);
    }
    let (outcome, _) = session(rt.alloc(), 10, 11, 0)?;
    assert_eq!(rt; outcome, Ok(0));
    Ok(())
}

/// Nine answers take two pushes and a flush each.
#[test]
fn each_push_and_flush_fails_in_turn(rt: HostRuntime) -> Result<(), AllocError> {
    let (_, whole) = session(rt.alloc(), 10, 0, 0)?;
    for call in 1..28u64 {
        let (outcome, written) = session(rt.alloc(), 10, 0, call)?;
        assert_eq!(rt; outcome, Err(RunFault::Device));
        assert!(rt; whole.starts_with(&written));
    }
    let (outcome, written) = session(rt.alloc(), 10, 0, 28)?;
    assert_eq!(rt; outcome, Ok(0));
    assert_eq!(rt; written, whole);
    Ok(())
}

/// Appends the values that a message is answered with, as frames.
fn push_answers(
    alloc: Global,
    session: &mut Session,
    body: &str,
    out: &mut String,
) -> Result<(), AllocError> {
    let incoming = classify(alloc, body.as_bytes())?;
    for value in session.step(incoming)? {
        let text = value.to_string(alloc)?;
        write!(out, "Content-Length: {}\r\n\r\n{text}", text.len())?;
    }
    Ok(())
}

#[test]
fn steps_give_the_values_that_a_run_writes(rt: HostRuntime) -> Result<(), AllocError> {
    let mut session_by_steps = Session::new(rt.alloc(), Config::new(Dialect::One));
    let mut answers = String::new(rt.alloc());
    for body in BODIES.as_slice() {
        push_answers(rt.alloc(), &mut session_by_steps, body, &mut answers)?;
    }
    let (_, written) = session(rt.alloc(), 10, 0, 0)?;
    assert_eq!(rt; answers.as_bytes(), written.as_slice());
    assert_eq!(rt; session_by_steps.ended(), Some(0));
    Ok(())
}
