//! The byte intervals of the rows of the tables.
ghost use Rattle.lam_scope.specs.RowIntervals.{place_interval, binder_interval, use_interval};

use crate::intervals::{HasInterval, Interval, no_bytes, one_byte};
use crate::rows::{BinderRow, PlaceRow, UseRow};

/// The span of a subterm; empty if it is derived.
impl HasInterval for PlaceRow {
    ghost interval_of = { place_interval };

    fn interval(&self) -> Interval {
        if self.derived {
            return no_bytes();
        }
        if self.span.start < self.span.end {
            return Interval {
                lowest: self.span.start,
                highest: self.span.end - 1,
            };
        }
        no_bytes()
    }
}

/// The first byte of the token; empty for an underscore.
impl HasInterval for BinderRow {
    ghost interval_of = { binder_interval };

    fn interval(&self) -> Interval {
        match &self.name {
            None => no_bytes(),
            Some(_) => one_byte(self.token.start),
        }
    }
}

/// The first byte of the token.
impl HasInterval for UseRow {
    ghost interval_of = { use_interval };

    fn interval(&self) -> Interval {
        one_byte(self.token.start)
    }
}
