//! The common prefix of two texts, and the pieces there.
ghost use Rattle.std.specs.Prelude.{◌≡◌, ◌<◌, ◌≤◌, ◌^◌, length, take};
ghost use Rattle.lam_query.specs.inner.Bound.{HaveNumbers, KeepsNumbers};
ghost use Rattle.lam_query.specs.inner.Fronts.{IsFrontOfBoth, AreRowsWithin, AreBoundBy, StandBy};
ghost use Rattle.lam_query.specs.inner.Kept.{rows_of, bytes_of};

use crate::bound::Bound;
use crate::rows::Row;

/// The first pieces of a text.
#[derive(Clone, Copy)]
pub(crate) struct FrontRows {
    /// The number of pieces.
    pub(crate) count: usize,
    /// The byte offset at which they end.
    pub(crate) end: usize,
}

/// The number of bytes that are compared at once.
pub(crate) const BLOCK: usize = 4096;

/// The length of the common prefix of two texts in bytes.
pub(crate) fn common_front(old: &str, new: &str) -> usize
    ensures { IsFrontOfBoth result old.now new.now }
{
    let old = old.as_bytes();
    let new = new.as_bytes();
    let shorter = old.len().min(new.len());
    let mut front = 0;
    while shorter - front >= BLOCK && old[front..front + BLOCK] == new[front..front + BLOCK] {
        front += BLOCK;
    }
    front_from(old, new, front)
}

/// The length of the common prefix, of which `known` bytes are already known.
fn front_from(old: &[u8], new: &[u8], known: usize) -> usize
    requires in_old { known ≤ length old.now }
    requires in_new { known ≤ length new.now }
    requires same { take known old.now ≡ take known new.now }
    ensures { IsFrontOfBoth result old.now new.now }
{
    let shorter = old.len().min(new.len());
    for i in known..shorter {
        if old[i] != new[i] {
            return i;
        }
    }
    shorter
}

/// Returns the first pieces that end within this many bytes. The last piece is never one of them, since no semicolon ends it.
pub(crate) fn rows_within(rows: &[Row], bytes: usize) -> FrontRows
    requires { bytes_of (rows_of rows.now) < 2 ^ 64 }
    ensures { AreRowsWithin bytes result (rows_of rows.now) }
{
    let mut end = 0;
    let last = rows.len().saturating_sub(1);
    for i in 0..last {
        let next = end + rows[i].end;
        if next > bytes {
            return FrontRows { count: i, end };
        }
        end = next;
    }
    FrontRows { count: last, end }
}

/// Binds what the commands of these pieces bind, and nothing else.
pub(crate) fn bind_again(bound: &mut Bound, rows: &[Row])
    requires { HaveNumbers bound.old }
    ensures bound { AreBoundBy (rows_of rows.now) bound.old bound.new }
    ensures stand { StandBy (rows_of rows.now) bound.old bound.new }
    ensures keeps { KeepsNumbers bound.old bound.new }
    ensures numbers { HaveNumbers bound.new }
{
    bound.clear();
    for i in 0..rows.len() {
        if let Some(command) = &rows[i].command {
            bound.rebind(command.binds, command.found.bound());
        }
    }
}
