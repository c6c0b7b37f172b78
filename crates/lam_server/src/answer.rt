//! The answer to one message body.

ghost use Rattle.std.specs.Prelude.{◌≡◌, ◌-◌, ◌^◌, ◌<◌, false, map};
ghost use Rattle.lam_frame.specs.Device.{sink_of};
ghost use Rattle.std.specs.List.{All};
ghost use Rattle.serde_json.specs.Written.{has_float};
ghost use Rattle.lam_session.specs.Outgoing.{data_of};
ghost use Rattle.lam_server.specs.inner.Answer.{AnswersBody, WritesValues};

use crate::faults::RunFault;
use lam_frame::{Sink, write_frame};
use lam_rpc::classify;
use lam_session::{Outgoing, Session};
use std::alloc::Global;

/// Handles the message in one body and writes its answer.
pub fn answer<W: Sink>(
    alloc: Global,
    session: &mut Session,
    writer: &mut W,
    body: &[u8],
) -> Result<(), RunFault>
    requires { W.failed writer.old < 2 ^ 64 - 1 }
    ensures { AnswersBody (sink_of W.taken W.flushed W.failed) session.old body.now writer.old result session.new writer.new }
{
    let incoming = classify(alloc, body)?;
    let sent = session.receive(incoming)?;
    write_outgoing(alloc, writer, &sent)
}

/// Writes a frame with the JSON of each outgoing message, in order, and flushes after each.
fn write_outgoing<W: Sink>(alloc: Global, writer: &mut W, sent: &[Outgoing]) -> Result<(), RunFault>
    requires failures { W.failed writer.old < 2 ^ 64 - 1 }
    requires plain { All (λ o. has_float (data_of o) ≡ false) sent.now }
    ensures { WritesValues (sink_of W.taken W.flushed W.failed) (map data_of sent.now) writer.old result writer.new }
{
    for outgoing in sent {
        let text = outgoing.to_json(alloc)?;
        write_frame(writer, text.as_bytes())?;
    }
    Ok(())
}
