//! The common suffix of two texts, and the pieces there.
ghost use Rattle.std.specs.Prelude.{◌≡◌, ◌≤◌, ◌-◌, List, length, IsTrue, drop};
ghost use Rattle.lam_query.specs.inner.Ends.{IsEndOfBoth, IsLeftOf, IsMetAt};
ghost use Rattle.lam_query.specs.inner.Kept.{Row as KeptRow, rows_of, bytes_of};

use crate::fronts::{BLOCK, FrontRows};
use crate::rows::Row;

/// The pieces of the old text after a change, some of which the new text may also end with.
#[derive(Drop)]
pub(crate) struct OldPieces<'r> {
    /// The rows of all pieces.
    pub(crate) rows: &'r [Row],
    /// The index of the first piece that was not passed.
    pub(crate) next: usize,
    /// The number of bytes of the old text from there on.
    pub(crate) bytes: usize,
    /// The length of the common suffix of the two texts in bytes.
    pub(crate) common: usize,
}

/// The length of the common suffix of the two texts in bytes.
pub(crate) fn common_end(old: &str, new: &str) -> usize
    ensures { IsEndOfBoth result old.now new.now }
{
    let old = old.as_bytes();
    let new = new.as_bytes();
    let shorter = old.len().min(new.len());
    let mut end = 0;
    while shorter - end >= BLOCK
        && old[old.len() - (end + BLOCK)..old.len() - end]
            == new[new.len() - (end + BLOCK)..new.len() - end]
    {
        end += BLOCK;
    }
    end_from(old, new, end)
}

/// The length of the common suffix, of which `known` bytes are already known.
fn end_from(old: &[u8], new: &[u8], known: usize) -> usize
    requires in_old { known ≤ length old.now }
    requires in_new { known ≤ length new.now }
    requires same { drop (length old.now - known) old.now ≡ drop (length new.now - known) new.now }
    ensures { IsEndOfBoth result old.now new.now }
{
    let shorter = old.len().min(new.len());
    for i in known..shorter {
        if old[old.len() - (i + 1)] != new[new.len() - (i + 1)] {
            return i;
        }
    }
    shorter
}

impl<'r> OldPieces<'r> {
    /// The pieces after these first ones, none of which has been passed.
    pub(crate) fn new(rows: &'r [Row], front: FrontRows, old: &str, common: usize) -> OldPieces<'r>
        requires inside { front.count ≤ length rows.now }
        requires end { front.end ≤ length old.now }
        requires counted { length old.now - front.end ≡ bytes_of (drop front.count (rows_of rows.now)) }
        ensures left { IsLeftOf (rows_of rows.now) result }
        ensures next { result.next ≡ front.count }
        ensures common { result.common ≡ common }
    {
        OldPieces {
            rows,
            next: front.count,
            bytes: old.len() - front.end,
            common,
        }
    }

    /// Passes over the pieces that start more than `left` bytes before the end of the text, and returns whether one starts
    /// exactly there and both texts are the same from there on.
    pub(crate) fn is_met(&mut self, left: usize) -> bool
        requires { (rows : List KeptRow) × IsLeftOf rows self.old }
        ensures left { (rows : List KeptRow) → IsLeftOf rows self.old → IsLeftOf rows self.new }
        ensures forward { self.old.next ≤ self.new.next }
        ensures common { self.new.common ≡ self.old.common }
        ensures met { IsTrue result → IsMetAt left self.new }
    {
        while self.next < self.rows.len() && self.bytes > left {
            self.bytes -= self.rows[self.next].end;
            self.next += 1;
        }
        self.next < self.rows.len() && self.bytes == left && left <= self.common
    }

    /// Passes over all pieces.
    pub(crate) fn pass_all(&mut self)
        ensures rows { self.new.rows ≡ self.old.rows }
        ensures next { self.new.next ≡ length self.old.rows.now }
        ensures bytes { self.new.bytes ≡ 0 }
    {
        self.next = self.rows.len();
        self.bytes = 0;
    }
}
