//! Writing of frames.

ghost use Rattle.std.specs.Prelude.{◌≡◌, ◌-◌, ◌^◌, ◌<◌, ◌≤◌, ◌++◌, OnOk, OnErr, IfErr, decimal, drop, length, IsSome};
ghost use Rattle.lam_frame.specs.Device.{AppendsFront, IsFlushed};
ghost use Rattle.lam_frame.specs.Frame.{frame_text, header_line};
ghost use Rattle.lam_frame.specs.Next.{failures_after};
ghost use Rattle.std.specs.Io.KnownBytes.{Appends};

use crate::device::Sink;
use crate::fault::FrameFault;

const NAME: &[u8; 16] = b"Content-Length: ";

/// What follows the number.
const END: &[u8; 4] = b"\r\n\r\n";

/// Room for the name, the 20 digits of the greatest number, and the end.
const ROOM: usize = 40;

/// Writes a frame with this body to the sink and flushes it.
///
/// The only error is `Device`: a push or a flush failed, and a prefix of the frame was accepted.
pub fn write_frame<W: Sink>(sink: &mut W, body: &[u8]) -> Result<(), FrameFault>
    requires { W.failed sink.old < 2 ^ 64 - 1 }
    ensures taken { OnOk result (Appends (W.taken sink.old) (W.taken sink.new) (frame_text body.now)) }
    ensures flushed { OnOk result (IsFlushed (W.taken sink.new) (W.flushed sink.new)) }
    ensures told { IsSome (W.flushed sink.old) → IsSome (W.flushed sink.new) }
    ensures front { OnErr result (AppendsFront (W.taken sink.old) (W.taken sink.new) (frame_text body.now)) }
    ensures fault { IfErr result (λ fault. fault ≡ FrameFault.Device) }
    ensures failures { W.failed sink.new ≡ failures_after result (W.failed sink.old) }
{
    let mut room = [0; ROOM];
    let start = write_header(&mut room, body.len());
    push_all(sink, &room[start..])?;
    push_all(sink, body)?;
    match sink.flush() {
        Ok(()) => Ok(()),
        Err(_) => Err(FrameFault::Device),
    }
}

/// Writes the header part of a body of this length to the end of `room`, and returns where it begins.
fn write_header(room: &mut [u8; ROOM], length: usize) -> usize
    ensures within { result ≤ 40 }
    ensures text { drop result room.new ≡ header_line length }
{
    room[ROOM - END.len()..].copy_from_slice(END);
    let digits = write_digits(room, length);
    let start = digits - NAME.len();
    room[start..digits].copy_from_slice(NAME);
    start
}

/// Writes a number before the last four bytes, and returns where it begins.
fn write_digits(room: &mut [u8; ROOM], number: usize) -> usize
    ensures low { 16 ≤ result }
    ensures high { result ≤ 36 }
    ensures text { drop result room.new ≡ decimal number ++ drop 36 room.old }
{
    let mut start = ROOM - END.len();
    let mut rest = number;
    while rest >= 10 {
        start -= 1;
        room[start] = b'0' + (rest % 10) as u8;
        rest /= 10;
    }
    start -= 1;
    room[start] = b'0' + rest as u8;
    start
}

/// Pushes until all bytes are accepted.
fn push_all<W: Sink>(sink: &mut W, bytes: &[u8]) -> Result<(), FrameFault>
    requires { W.failed sink.old < 2 ^ 64 - 1 }
    ensures taken { OnOk result (Appends (W.taken sink.old) (W.taken sink.new) bytes.now) }
    ensures unflushed { W.flushed sink.new ≡ W.flushed sink.old }
    ensures front { OnErr result (AppendsFront (W.taken sink.old) (W.taken sink.new) bytes.now) }
    ensures fault { IfErr result (λ fault. fault ≡ FrameFault.Device) }
    ensures failures { W.failed sink.new ≡ failures_after result (W.failed sink.old) }
{
    let mut rest = bytes;
    while !rest.is_empty() {
        let Ok(count) = sink.push(rest) else {
            return Err(FrameFault::Device);
        };
        if count == 0 {
            return Err(FrameFault::Device);
        }
        rest = rest.split_at(count).1;
    }
    Ok(())
}
