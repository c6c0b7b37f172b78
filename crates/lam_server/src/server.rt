//! The server, one message at a time.

ghost use Rattle.std.specs.Prelude.{◌≡◌, ◌-◌, ◌^◌, ◌<◌, IfOk, []};
ghost use Rattle.lam_frame.specs.Device.{source_of, sink_of};
ghost use Rattle.lam_session.specs.State.{fresh, dialect_of};

use crate::answer::answer;
use crate::faults::RunFault;
use lam_frame::{FrameReader, Sink, Source};
use lam_session::{Config, Session};
use std::alloc::{AllocError, Global};
use std::marker::Model;

/// The exit status at a clean end of the input without an `exit`.
const NO_EXIT: u8 = 1;

/// A server between two messages.
#[derive(Drop)]
pub struct Server {
    alloc: Global,
    frames: FrameReader,
    session: Session,
}

// The model is the bytes held for later, the number of pulls made, and the state of the session.
impl Model for Server {
    ghost use Rattle.std.specs.Prelude.{◌≡◌, false, None};
    ghost use Rattle.lam_frame.specs.declared.reader.State.TheVariants.{Reading};
    ghost use Rattle.lam_session.specs.State.{ended_status};
    ghost use Rattle.lam_server.specs.inner.Waiting.{Waiting};

    ghost Value = { Waiting };

    ghost view = { λ s. record { held = s.frames.held; pulls = s.frames.pulls; state = s.session.state } };

    ghost invariant = { λ s. (s.frames.state ≡ Reading) × ((s.session.gave_up ≡ false) × (ended_status s.session.state.life ≡ None)) };
}

/// The outcome of a turn.
#[derive(Drop)]
pub enum Turn {
    /// A message was answered, and the session continues.
    More(Server),
    /// The session has ended, with the exit status of the program.
    End(u8),
}

impl Server {
    ghost use Rattle.lam_server.specs.inner.Turn.{TakesTurn, ShrinksWork};

    /// Creates a server before its first message. Later calls allocate with `alloc`.
    pub fn new(alloc: Global, config: Config) -> Result<Server, AllocError>
        ensures { IfOk result (λ s. s ≡ record { held = []; pulls = 0; state = fresh (dialect_of config) }) }
    {
        let frames = FrameReader::new(alloc)?;
        let session = Session::new(alloc, config);
        Ok(Server {
            alloc,
            frames,
            session,
        })
    }

    /// Reads the next message and sends its answer. If the input has ended, so does the session.
    ///
    /// An error consumes the server. `RunFault::Header` tells what is wrong with the next bytes, and nothing was sent. `Device`
    /// is returned if a device failed in this call, or before a pull that would exceed 2^48, and `Memory` if an allocation
    /// failed.
    pub fn turn<R: Source, W: Sink>(self, reader: &mut R, writer: &mut W) -> Result<Turn, RunFault>
        requires source { R.failed reader.old < 2 ^ 64 - 1 }
        requires sink { W.failed writer.old < 2 ^ 64 - 1 }
        ensures takes { TakesTurn (source_of R.coming R.failed R.gave) (sink_of W.taken W.flushed W.failed)
            self reader.old writer.old result reader.new writer.new }
        ensures progress { ShrinksWork self result }
    {
        let Server {
            alloc,
            mut frames,
            mut session,
        } = self;
        let Some(body) = frames.next(reader)? else {
            return Ok(Turn::End(NO_EXIT));
        };
        answer(alloc, &mut session, writer, &body)?;
        match session.ended() {
            Some(status) => Ok(Turn::End(status)),
            None => Ok(Turn::More(Server {
                alloc,
                frames,
                session,
            })),
        }
    }
}
