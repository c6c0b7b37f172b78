//! Byte intervals of a text, and a search for the first of many that contains a byte, without a walk over all of them.
ghost use Rattle.std.specs.Prelude.{◌≡◌, ◌+◌, ◌<◌, ◌≤◌, ◌^◌, length, map, position, IfOk, take, drop};
ghost use Rattle.std.specs.List.{position_from};
ghost use Rattle.lam_scope.specs.Intervals.{has, IsPart, AreParts, AreRuns, no_bytes, one_byte};

use std::alloc::{AllocError, Global};

/// A closed interval of byte offsets, from the lowest to the highest. Empty if the lowest is above the highest.
#[derive(Drop)]
pub(crate) struct Interval {
    pub(crate) lowest: usize,
    pub(crate) highest: usize,
}

/// Something with a byte interval in a text.
pub(crate) trait HasInterval {
    ghost use Rattle.lam_scope.specs.declared.intervals.Interval.{Interval as Bytes};

    ghost interval_of: { Self → Bytes };

    /// Returns its byte interval.
    fn interval(&self) -> Interval
        ensures { result ≡ interval_of self.now };
}

/// The number of rows in a block.
const RUN: usize = 64;

/// Returns for each block of rows an interval that contains theirs, so that a search can skip blocks without the byte.
pub(crate) fn runs_of<T: HasInterval>(
    alloc: Global,
    rows: &[T],
) -> Result<Vec<Interval>, AllocError>
    requires { length rows.now < 2 ^ 64 }
    ensures { IfOk result (λ runs. AreRuns runs.items (map T.interval_of rows.now)) }
{
    let mut runs = Vec::new(alloc);
    let mut before = 0;
    while before < rows.len() {
        let run = run_behind(rows, before);
        let whole = around(run);
        runs.push(whole)?;
        before += run.len();
    }
    Ok(runs)
}

/// Returns the index of the first row that contains the byte.
pub(crate) fn first_with<T: HasInterval>(
    runs: &[Interval],
    rows: &[T],
    offset: usize,
) -> Option<usize>
    requires runs { AreRuns runs.now (map T.interval_of rows.now) }
    requires count { length rows.now < 2 ^ 64 }
    ensures { result ≡ position (has offset) (map T.interval_of rows.now) }
{
    let mut before = 0;
    for i in 0..runs.len() {
        let run = run_behind(rows, before);
        let whole = &runs[i];
        match first_in_run(whole, run, before, offset) {
            Some(index) => return Some(index),
            None => before += run.len(),
        }
    }
    None
}

/// Returns the block that starts after `before` rows; the last block may be shorter.
fn run_behind<T>(rows: &[T], before: usize) -> &[T]
    requires { before ≤ length rows.now }
    ensures { result.now ≡ take 64 (drop before rows.now) }
{
    first_run(&rows[before..])
}

#[tactic(auto, using(crate::proofs::IntervalRuns::whole_runs))]
fn first_run<T>(rows: &[T]) -> &[T]
    ensures { result.now ≡ take 64 rows.now }
{
    if rows.len() < RUN {
        return rows;
    }
    &rows[..RUN]
}

/// Returns an interval that contains those of a block.
fn around<T: HasInterval>(run: &[T]) -> Interval
    ensures { AreParts (map T.interval_of run.now) result }
{
    let mut whole = no_bytes();
    for i in 0..run.len() {
        let row = &run[i];
        let interval = row.interval();
        whole = joined(whole, interval);
    }
    whole
}

/// Returns an interval that contains both.
fn joined(one: Interval, other: Interval) -> Interval
    ensures one { IsPart one result }
    ensures other { IsPart other result }
{
    Interval {
        lowest: one.lowest.min(other.lowest),
        highest: one.highest.max(other.highest),
    }
}

/// Returns the index of the first row of a block that contains the byte, given the number of rows before the block.
fn first_in_run<T: HasInterval>(
    whole: &Interval,
    run: &[T],
    before: usize,
    offset: usize,
) -> Option<usize>
    requires parts { AreParts (map T.interval_of run.now) whole.now }
    requires count { before + length run.now < 2 ^ 64 }
    ensures { result ≡ position_from (has offset) before (map T.interval_of run.now) }
{
    if has(whole, offset) {
        return first_of(run, before, offset);
    }
    None
}

fn first_of<T: HasInterval>(run: &[T], before: usize, offset: usize) -> Option<usize>
    requires { before + length run.now < 2 ^ 64 }
    ensures { result ≡ position_from (has offset) before (map T.interval_of run.now) }
{
    for i in 0..run.len() {
        let row = &run[i];
        let interval = row.interval();
        if has(&interval, offset) {
            return Some(before + i);
        }
    }
    None
}

/// Whether an interval contains the byte.
fn has(interval: &Interval, offset: usize) -> bool
    ensures { result ≡ has offset interval.now }
{
    if offset < interval.lowest {
        return false;
    }
    if interval.highest < offset {
        return false;
    }
    true
}

/// The empty interval. It adds nothing to an interval around it.
pub(crate) fn no_bytes() -> Interval
    ensures { result ≡ no_bytes }
{
    Interval {
        lowest: usize::MAX,
        highest: 0,
    }
}

/// The interval of that byte alone.
pub(crate) fn one_byte(offset: usize) -> Interval
    ensures { result ≡ one_byte offset }
{
    Interval {
        lowest: offset,
        highest: offset,
    }
}
